//! The code of bodies.

ghost use Rattle.std.specs.Prelude.{◌≡◌, ◌∷◌, List, map, codes, option_map, IfOk};
ghost use Rattle.mpl_ast.specs.declared.program.Declaration.{Declaration};
ghost use Rattle.mpl_mean.specs.Laws.Sizes.{Every, words_of_formal};
ghost use Rattle.mpl_mean.specs.Meaning.Layout as layout;
ghost use Rattle.mpl_mean.specs.Meaning.Layout.{function_named};
ghost use Rattle.mpl_mean.specs.Plain.Stmt.{stmts_from};
ghost use Rattle.mpl_gen_code.specs.ProgramImage.{code_of_body, main_env, main_stmts};
ghost use Rattle.mpl_gen_code.specs.Scopes.{formals_from};
ghost use Rattle.mpl_gen_expr.specs.Drafts.{Fits32};
ghost use Rattle.mpl_gen_bounds.specs.ImageFits.{CodeFits};
ghost use Rattle.mpl_gen_body.specs.Internal.Surroundings.{block_of, env_with};
ghost use Rattle.mpl_scope.specs.First.{or_else};
ghost use Rattle.mpl_gen_scope.specs.SeenMarks.{marked};
ghost use Rattle.mpl_gen_scope.specs.SeenScope.{env_seen, finish_seen};

use crate::statements::body;
use mdf_code::{RawCode, Sizes};
use mpl_ast::class::{Formal, Formals};
use mpl_ast::program::Declaration;
use mpl_ast::statement::{Block, Statement};
use mpl_gen_expr::codes::Codes;
use mpl_gen_scope::locals::{Locals, Shape, Slot};
use mpl_gen_scope::marks::Marks;
use mpl_gen_scope::outline::Outline;
use mpl_gen_scope::scope::{Finish, Scope};
use mpl_layout::class::Class;
use mpl_layout::name::is_same;
use mpl_layout::part::Part;
use mpl_layout::words::words_of_one;
use mpl_value::{NoMemory, Numbers};
use std::alloc::Global;

/// What the body of a member sees of its object, or a guard of the state.
#[derive(Clone, Copy)]
pub struct Object<'o, 'a> {
    pub class: Option<Class<'a>>,
    pub parts: &'o [Part<'a>],
}

/// What surrounds the statements of a body with these formals.
pub fn scope_of<'o, 'a>(
    alloc: Global,
    outline: &'o Outline<'a>,
    marks: Marks<'o>,
    finish: Finish,
    object: Object<'o, 'a>,
    formals: &'a [Formal],
) -> Result<Scope<'o, 'a>, NoMemory>
    ensures { IfOk result (λ scope. env_seen scope ≡ env_with outline.now (marked marks.entry.nodes.now) (finish_seen finish) object.entry formals.now) }
{
    let locals = locals_of(alloc, formals)?;
    let sizes = sizes_of(alloc, outline, formals)?;
    Ok(Scope {
        alloc,
        outline,
        marks,
        finish,
        class: object.class,
        parts: object.parts,
        locals,
        sizes,
    })
}

/// The code of a body with these formals, on an object or none.
pub fn code_of_body<'o, 'a>(
    alloc: Global,
    outline: &'o Outline<'a>,
    marks: Marks<'o>,
    finish: Finish,
    object: Object<'o, 'a>,
    formals: &'a [Formal],
    list: &'a [Statement],
) -> Result<RawCode, NoMemory>
    requires { CodeFits (code_of_body (env_with outline.now (marked marks.nodes.now) (finish_seen finish) object formals.now) (stmts_from list.now)) }
    ensures { IfOk result (λ code. code ≡ code_of_body (env_with outline.now (marked marks.entry.nodes.now) (finish_seen finish) object.entry formals.now) (stmts_from list.now)) }
{
    let mut scope = scope_of(alloc, outline, marks, finish, object, formals)?;
    let mut codes = Codes::new(alloc);
    body(&mut scope, &mut codes, list)?;
    let vars = encoded_sizes(alloc, scope.sizes.as_slice())?;
    let code = codes.into_text(alloc)?;
    Ok(RawCode { vars, code })
}

fn encoded_sizes(alloc: Global, sizes: &[usize]) -> Result<Sizes, NoMemory>
    requires { Every Fits32 sizes.now }
    ensures { IfOk result (λ encoded. encoded ≡ sizes.now) }
{
    let mut encoded = Sizes::new(alloc);
    for size in sizes {
        encoded.push(*size as u32)?;
    }
    Ok(encoded)
}

pub fn formals_of(formals: &Option<Formals>) -> &[Formal]
    ensures { result.now ≡ layout.formals_of formals.now }
{
    match formals {
        Some(formals) => formals.list.as_slice(),
        None => &[],
    }
}

/// The formals as variables, the first the newest.
fn locals_of<'a>(alloc: Global, formals: &'a [Formal]) -> Result<Locals<'a>, NoMemory>
    ensures { IfOk result (λ locals. locals ≡ formals_from 0 formals.now) }
{
    let mut locals = Locals::new(alloc);
    let mut left = formals.len();
    while left > 0 {
        left -= 1;
        let formal = &formals[left];
        let shape = Shape {
            name: formal.name.text.as_slice(),
            type_name: &formal.type_name,
            dimension: None,
        };
        locals.declare(Slot {
            number: left,
            shape,
        })?;
    }
    Ok(locals)
}

fn sizes_of<'a>(
    alloc: Global,
    outline: &Outline<'a>,
    formals: &'a [Formal],
) -> Result<Numbers<usize>, NoMemory>
    ensures { IfOk result (λ sizes. sizes ≡ map (words_of_formal outline.now) formals.now) }
{
    let mut sizes = Numbers::new(alloc);
    for formal in formals {
        sizes.push(words_of_one(outline.layout(), &formal.type_name))?;
    }
    Ok(sizes)
}

// ---- `main`

pub fn main_of<'o, 'a>(
    alloc: Global,
    outline: &'o Outline<'a>,
    marks: Marks<'o>,
) -> Result<RawCode, NoMemory>
    requires { CodeFits (code_of_body (main_env outline.now (marked marks.nodes.now)) (main_stmts (function_named (codes "main") outline.now))) }
    ensures { IfOk result (λ code. code ≡ code_of_body (main_env outline.now (marked marks.entry.nodes.now)) (main_stmts (function_named (codes "main") outline.now))) }
{
    let object = Object {
        class: None,
        parts: &[],
    };
    match main_block(outline.declarations()) {
        Some(block) => {
            let finish = Finish::OfBody(block.mark_line);
            let list = block.statements.as_slice();
            code_of_body(alloc, outline, marks, finish, object, &[], list)
        }
        None => {
            let finish = Finish::OfBody(0);
            code_of_body(alloc, outline, marks, finish, object, &[], &[])
        }
    }
}

fn main_block<'a>(declarations: &'a [Declaration]) -> Option<&'a Block>
    ensures { option_map (λ block. block.now) result ≡ option_map block_of (function_named (codes "main") declarations.now) }
{
    for declaration in declarations {
        if let Some(block) = block_if_main(declaration) {
            return Some(block);
        }
    }
    None
}

fn block_if_main<'a>(declaration: &'a Declaration) -> Option<&'a Block>
    ensures { (others : List Declaration) → option_map block_of (function_named (codes "main") (declaration.now ∷ others)) ≡ or_else (option_map (λ block. block.now) result) (option_map block_of (function_named (codes "main") others)) }
{
    match declaration {
        Declaration::Function(_, _, name, _, block) => {
            if is_same(name.text.as_slice(), b"main".as_slice()) {
                Some(block)
            } else {
                None
            }
        }
        Declaration::Struct(..) => None,
        Declaration::Class(..) => None,
    }
}
