ghost use Rattle.std.specs.Prelude.{◌≡◌, ℕ, ◌∷◌, ◌++◌, List, length, map, IfOk, OnOk};
ghost use Rattle.mpl_ast.specs.declared.class.Item.{Item};
ghost use Rattle.mpl_ast.specs.declared.program.Declaration.{Declaration};
ghost use Rattle.mpl_mean.specs.Meaning.BodyMeaning.{main_statements};
ghost use Rattle.mpl_mean.specs.Meaning.Layout as layout;
ghost use Rattle.mpl_mean.specs.Meaning.Layout.{classes_of, members_from};
ghost use Rattle.mpl_mean.specs.Plain.Stmt.{stmts_from};
ghost use Rattle.mpl_body_code.specs.Codes.{body_code, finish_of};
ghost use Rattle.mpl_mean.specs.Plain.Scopes.{formal_shape};
ghost use Rattle.mpl_body_code.specs.SeenImage.{image_seen};
ghost use Rattle.mpl_body_image.specs.Laid.{class_entries, classes_code, function_entries, functions_code, laid, main_code, main_entry, member_entries, members_code};
ghost use Rattle.mpl_body_image.specs.Internal.Bodies.{Sees, env_with, is_main, statements_in};
ghost use Rattle.mpl_layout.specs.Bounds.{StateFits};
ghost use Rattle.mpl_layout.specs.SeenClasses.{class_seen};

use crate::outline::Outline;
use crate::scope::{Object, Scope, is_bool};
use crate::statements::body;
use mpl_ast::class::{Formal, Formals, Item, ResultType};
use mpl_ast::program::Declaration;
use mpl_ast::statement::Statement;
use mpl_body_code::{Code, Finish, FunctionCode, Image, MemberCode};
use mpl_layout::class::Class;
use mpl_layout::layout::declarations_of;
use mpl_layout::name::is_same;
use mpl_layout::parts::parts_of_items;
use mpl_locals::locals::{Locals, Shape};
use mpl_mean::Typed;
use mpl_value::NoMemory;
use std::alloc::Global;

/// The code of a program, and where that of `main` begins.
#[derive(Drop)]
pub struct BodyCodes {
    pub image: Image,
    pub main: usize,
}

pub fn image_of(alloc: Global, typed: &Typed) -> Result<BodyCodes, NoMemory>
    ensures image { IfOk result (λ codes. image_seen codes.image ≡ laid typed.now.declarations) }
    ensures main { IfOk result (λ codes. codes.main ≡ main_entry typed.now.declarations) }
{
    let outline = Outline::of(alloc, declarations_of(typed))?;
    let mut code = Code::new(alloc);
    let functions = add_functions(alloc, &outline, &mut code)?;
    let members = add_classes(alloc, &outline, &mut code)?;
    let main = code.len();
    add_main(alloc, &outline, &mut code)?;
    let image = Image {
        code,
        functions,
        members,
    };
    Ok(BodyCodes { image, main })
}

// ---- functions

fn add_functions<'o, 'a>(
    alloc: Global,
    outline: &'o Outline<'a>,
    code: &mut Code,
) -> Result<Vec<FunctionCode>, NoMemory>
    ensures entries { IfOk result (λ functions. functions.items ≡ function_entries outline.now (length code.old) outline.now) }
    ensures code { OnOk result (code.new ≡ code.old ++ functions_code outline.now outline.now) }
{
    let mut functions = Vec::new(alloc);
    for declaration in outline.declarations() {
        add_function(alloc, outline, code, &mut functions, declaration)?;
    }
    Ok(functions)
}

fn add_function<'o, 'a>(
    alloc: Global,
    outline: &'o Outline<'a>,
    code: &mut Code,
    functions: &mut Vec<FunctionCode>,
    declaration: &'a Declaration,
) -> Result<(), NoMemory>
    ensures code { OnOk result ((others : List Declaration) → code.new ++ functions_code outline.now others ≡ code.old ++ functions_code outline.now (declaration.now ∷ others)) }
    ensures entries { OnOk result ((others : List Declaration) → functions.new.items ++ function_entries outline.now (length code.new) others ≡ functions.old.items ++ function_entries outline.now (length code.old) (declaration.now ∷ others)) }
{
    match declaration {
        Declaration::Function(_, result_type, _, formals, block) => {
            let entry = code.len();
            let formals = formals_of(formals);
            add_body(
                alloc,
                outline,
                None,
                code,
                formals,
                block.statements.as_slice(),
            )?;
            functions.push(FunctionCode {
                entry,
                line: block.mark_line,
                is_bool: is_bool(result_type),
            })?;
            Ok(())
        }
        Declaration::Struct(..) => Ok(()),
        Declaration::Class(..) => Ok(()),
    }
}

pub fn formals_of(formals: &Option<Formals>) -> &[Formal]
    ensures { result.now ≡ layout.formals_of formals.now }
{
    match formals {
        Some(formals) => formals.list.as_slice(),
        None => &[],
    }
}

/// The code of a body with these formals, on an object or none.
fn add_body<'o, 'a>(
    alloc: Global,
    outline: &'o Outline<'a>,
    object: Option<&'o Object<'a>>,
    code: &mut Code,
    formals: &'a [Formal],
    list: &'a [Statement],
) -> Result<(), NoMemory>
    ensures { OnOk result (code.new ≡ code.old ++ body_code (env_with outline.now object.entry formals.now) (stmts_from list.now)) }
{
    let mut scope = Scope {
        alloc,
        outline,
        object,
        locals: locals_of(alloc, formals)?,
    };
    body(&mut scope, code, list)
}

/// The formals as variables, the first the newest.
fn locals_of<'a>(alloc: Global, formals: &'a [Formal]) -> Result<Locals<'a>, NoMemory>
    ensures { IfOk result (λ locals. locals ≡ map formal_shape formals.now) }
{
    let mut locals = Locals::new(alloc);
    let mut left = formals.len();
    while left > 0 {
        left -= 1;
        let formal = &formals[left];
        locals.declare(Shape {
            name: formal.name.text.as_slice(),
            type_name: &formal.type_name,
            dimension: None,
        })?;
    }
    Ok(locals)
}

// ---- members

fn add_classes<'o, 'a>(
    alloc: Global,
    outline: &'o Outline<'a>,
    code: &mut Code,
) -> Result<Vec<MemberCode>, NoMemory>
    ensures entries { IfOk result (λ members. members.items ≡ class_entries outline.now (length code.old) (classes_of outline.now)) }
    ensures code { OnOk result (code.new ≡ code.old ++ classes_code outline.now (classes_of outline.now)) }
{
    let mut members = Vec::new(alloc);
    for class in outline.classes() {
        add_class(alloc, outline, code, &mut members, *class)?;
    }
    Ok(members)
}

#[tactic(auto, using(crate::proofs::Seeing::sees_nothing, crate::proofs::Seeing::sees_object))]
fn add_class<'o, 'a>(
    alloc: Global,
    outline: &'o Outline<'a>,
    code: &mut Code,
    members: &mut Vec<MemberCode>,
    class: Class<'a>,
) -> Result<(), NoMemory>
    requires { StateFits outline.now (class_seen class) }
    ensures code { OnOk result (code.new ≡ code.old ++ members_code outline.now (class_seen class.entry) (class_seen class.entry).members) }
    ensures entries { OnOk result (members.new.items ≡ members.old.items ++ member_entries outline.now (class_seen class.entry) (length code.old) (class_seen class.entry).members) }
{
    if class.is_regular {
        return add_members(alloc, outline, None, code, members, class);
    }
    let parts = parts_of_items(alloc, outline.layout(), class.items)?;
    let object = Object { class, parts };
    add_members(alloc, outline, Some(&object), code, members, class)
}

fn add_members<'o, 'a>(
    alloc: Global,
    outline: &'o Outline<'a>,
    object: Option<&'o Object<'a>>,
    code: &mut Code,
    members: &mut Vec<MemberCode>,
    class: Class<'a>,
) -> Result<(), NoMemory>
    requires { Sees outline.now object (class_seen class) }
    ensures code { OnOk result (code.new ≡ code.old ++ members_code outline.now (class_seen class.entry) (class_seen class.entry).members) }
    ensures entries { OnOk result (members.new.items ≡ members.old.items ++ member_entries outline.now (class_seen class.entry) (length code.old) (class_seen class.entry).members) }
{
    for item in class.items {
        add_member(alloc, outline, object, code, members, class, item)?;
    }
    Ok(())
}

fn add_member<'o, 'a>(
    alloc: Global,
    outline: &'o Outline<'a>,
    object: Option<&'o Object<'a>>,
    code: &mut Code,
    members: &mut Vec<MemberCode>,
    class: Class<'a>,
    item: &'a Item,
) -> Result<(), NoMemory>
    requires { Sees outline.now object (class_seen class) }
    ensures code { OnOk result ((id : ℕ) (others : List Item) → code.new ++ members_code outline.now (class_seen class.entry) (members_from id others) ≡ code.old ++ members_code outline.now (class_seen class.entry) (members_from id (item.now ∷ others))) }
    ensures entries { OnOk result ((id : ℕ) (others : List Item) → members.new.items ++ member_entries outline.now (class_seen class.entry) (length code.new) (members_from id others) ≡ members.old.items ++ member_entries outline.now (class_seen class.entry) (length code.old) (members_from id (item.now ∷ others))) }
{
    match item {
        Item::Member(_, result_type, _, formals, block) => {
            let entry = code.len();
            let formals = formals_of(formals);
            add_body(
                alloc,
                outline,
                object,
                code,
                formals,
                block.statements.as_slice(),
            )?;
            let finish = finish_of(result_type, block.mark_line);
            members.push(MemberCode { entry, finish })?;
            Ok(())
        }
        Item::OfField(..) => Ok(()),
        Item::Select(..) => Ok(()),
        Item::Public(..) => Ok(()),
        Item::Private(..) => Ok(()),
        Item::Empty(..) => Ok(()),
    }
}

fn finish_of(result_type: &ResultType, line: u32) -> Finish
    ensures { result ≡ finish_of result_type.now line }
{
    match result_type {
        ResultType::Void(_) => Finish::Void,
        ResultType::Typed(..) => Finish::Value(line),
    }
}

// ---- `main`

fn add_main<'o, 'a>(
    alloc: Global,
    outline: &'o Outline<'a>,
    code: &mut Code,
) -> Result<(), NoMemory>
    ensures { OnOk result (code.new ≡ code.old ++ main_code outline.now) }
{
    let list = main_statements(outline.declarations());
    add_body(alloc, outline, None, code, &[], list)
}

#[tactic(auto, using(crate::proofs::Mains::main_here, crate::proofs::Mains::main_later))]
fn main_statements(declarations: &[Declaration]) -> &[Statement]
    ensures { result.now ≡ main_statements declarations.now }
{
    for declaration in declarations {
        if is_main(declaration) {
            return statements_in(declaration);
        }
    }
    &[]
}

fn is_main(declaration: &Declaration) -> bool
    ensures { result ≡ is_main declaration.now }
{
    match declaration {
        Declaration::Function(_, _, name, _, _) => {
            is_same(name.text.as_slice(), b"main".as_slice())
        }
        Declaration::Struct(..) => false,
        Declaration::Class(..) => false,
    }
}

fn statements_in(declaration: &Declaration) -> &[Statement]
    ensures { result.now ≡ statements_in declaration.now }
{
    match declaration {
        Declaration::Function(_, _, _, _, block) => block.statements.as_slice(),
        Declaration::Struct(..) => &[],
        Declaration::Class(..) => &[],
    }
}
