use crate::rows::{Row, code, text};
use mdf_code::{
    Image, RawClass, RawClasses, RawEntries, RawEntry, RawFunctions, RawImage, RawMember,
    RawMembers, is_sound,
};
use mpl_value::{MemberId, NoMemory};
use std::alloc::Global;

/// A member's formals, whether it gives a word, its variables and its code.
#[derive(Clone, Copy)]
pub struct Body {
    pub formals: u32,
    pub gives: bool,
    pub variables: u32,
    pub rows: &'static [Row],
}

/// An image of a class and of `main`.
#[derive(Clone, Copy)]
pub struct Shape {
    /// The words of an object's state. A class with none is regular.
    pub words: u32,
    pub members: &'static [Body],
    /// The guard of a case that accepts the first member.
    pub guard: Option<&'static [Row]>,
    /// The variables of `main`.
    pub variables: u32,
    pub main: &'static [Row],
}

fn classes(alloc: Global, shape: &Shape) -> Result<RawClasses, NoMemory> {
    let mut classes = RawClasses::new(alloc);
    classes.push(RawClass {
        regular: shape.words == 0,
        words: shape.words,
        selects: shape.guard.is_some(),
    })?;
    Ok(classes)
}

fn member(alloc: Global, body: &Body) -> Result<RawMember, NoMemory> {
    Ok(RawMember {
        class: 0,
        formals: body.formals,
        result: if body.gives { Some(1) } else { None },
        body: code(alloc, body.variables, body.rows)?,
    })
}

fn members(alloc: Global, bodies: &[Body]) -> Result<RawMembers, NoMemory> {
    let mut members = RawMembers::new(alloc);
    for body in bodies {
        members.push(member(alloc, body)?)?;
    }
    Ok(members)
}

fn entries(alloc: Global, guard: Option<&[Row]>) -> Result<RawEntries, NoMemory> {
    let mut entries = RawEntries::new(alloc);
    if let Some(rows) = guard {
        entries.push(RawEntry {
            class: 0,
            priority: 1,
            member: MemberId(0),
            guard: Some(text(alloc, rows)?),
        })?;
    }
    Ok(entries)
}

fn raw(alloc: Global, shape: &Shape) -> Result<RawImage, NoMemory> {
    let classes = classes(alloc, shape)?;
    let members = members(alloc, shape.members)?;
    let entries = entries(alloc, shape.guard)?;
    let main = code(alloc, shape.variables, shape.main)?;
    Ok(RawImage {
        functions: RawFunctions::new(alloc),
        classes,
        members,
        entries,
        main,
    })
}

/// None where the parts are no image, or no memory is left.
pub fn image(alloc: Global, shape: &Shape) -> Option<Image> {
    let raw = raw(alloc, shape).ok()?;
    if is_sound(alloc, &raw).ok()? {
        Some(Image::of(raw))
    } else {
        None
    }
}
