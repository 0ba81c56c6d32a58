use mdf_code::{
    CodeText, Image, Instr, RawClass, RawClasses, RawCode, RawEntries, RawEntry, RawFunction,
    RawFunctions, RawImage, RawMember, RawMembers, Sizes, is_sound, listing,
};
use mpl_value::{Bytes, MemberId, NoMemory};
use std::alloc::Global;
use std::test::Fail;

fn one(alloc: Global, instruction: Instr) -> Result<CodeText, NoMemory> {
    let mut code = CodeText::new(alloc);
    code.push(instruction)?;
    Ok(code)
}

fn functions(alloc: Global) -> Result<RawFunctions, NoMemory> {
    let code = one(alloc, Instr::Return(0))?;
    let mut functions = RawFunctions::new(alloc);
    functions.push(RawFunction {
        formals: 0,
        result: 0,
        body: RawCode {
            vars: Sizes::new(alloc),
            code,
        },
    })?;
    Ok(functions)
}

fn classes(alloc: Global) -> Result<RawClasses, NoMemory> {
    let mut classes = RawClasses::new(alloc);
    classes.push(RawClass {
        regular: false,
        words: 1,
        selects: true,
    })?;
    Ok(classes)
}

fn members(alloc: Global) -> Result<RawMembers, NoMemory> {
    let code = one(alloc, Instr::End(2))?;
    let vars = Sizes::from_slice(alloc, &[1])?;
    let mut members = RawMembers::new(alloc);
    members.push(RawMember {
        class: 0,
        formals: 1,
        result: None,
        body: RawCode { vars, code },
    })?;
    Ok(members)
}

fn entries(alloc: Global) -> Result<RawEntries, NoMemory> {
    let guard = one(alloc, Instr::Push(1))?;
    let mut entries = RawEntries::new(alloc);
    entries.push(RawEntry {
        class: 0,
        priority: 1,
        member: MemberId(0),
        guard: Some(guard),
    })?;
    Ok(entries)
}

/// A `main` that prints a word.
fn main_code(alloc: Global) -> Result<RawCode, NoMemory> {
    let mut code = one(alloc, Instr::Push(-7))?;
    code.push(Instr::Print(Bytes::from_slice(alloc, b"i")?))?;
    code.push(Instr::End(1))?;
    Ok(RawCode {
        vars: Sizes::new(alloc),
        code,
    })
}

/// An image with one of each part.
fn small(alloc: Global) -> Result<RawImage, NoMemory> {
    let functions = functions(alloc)?;
    let classes = classes(alloc)?;
    let members = members(alloc)?;
    let entries = entries(alloc)?;
    let main = main_code(alloc)?;
    Ok(RawImage {
        functions,
        classes,
        members,
        entries,
        main,
    })
}

#[test]
fn an_image_is_copied_and_listed(rt: HostRuntime) -> Result<(), Fail> {
    let raw = small(rt.alloc())?;
    assert!(rt; is_sound(rt.alloc(), &raw)?);
    let copy = Image::of(raw).copy()?;
    let text = listing(rt.alloc(), &copy)?;
    let lines = b"ret 0\nend 2\npush 1\npush -7\nprint i\nend 1\n";
    assert_eq!(rt; text.as_slice(), lines.as_slice());
    Ok(())
}
