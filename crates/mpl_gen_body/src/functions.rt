//! The plain functions of an image.

ghost use Rattle.std.specs.Prelude.{◌≡◌, List, [], ◌∷◌, ◌++◌, map, IfOk, OnOk};
ghost use Rattle.mpl_ast.specs.declared.program.Declaration.{Declaration};
ghost use Rattle.mpl_mean.specs.Laws.Sizes.{Every};
ghost use Rattle.mpl_gen_code.specs.ExpressionCode.{PlainFunction, plain_functions};
ghost use Rattle.mpl_gen_code.specs.ProgramImage.{function_image};
ghost use Rattle.mpl_gen_bounds.specs.ImageFits.{FunctionFits};
ghost use Rattle.mpl_gen_body.specs.Internal.Fitting.{DeclarationFits};
ghost use Rattle.mpl_gen_scope.specs.SeenMarks.{marked};

use crate::bodies::{Object, code_of_body, formals_of};
use mdf_code::{RawFunction, RawFunctions};
use mpl_ast::class::Formal;
use mpl_ast::program::Declaration;
use mpl_ast::statement::{Block, TypeName};
use mpl_gen_scope::marks::Marks;
use mpl_gen_scope::outline::Outline;
use mpl_gen_scope::scope::Finish;
use mpl_layout::name::is_same;
use mpl_layout::words::words_of_one;
use mpl_value::NoMemory;
use std::alloc::Global;

pub fn functions_of<'o, 'a>(
    alloc: Global,
    outline: &'o Outline<'a>,
    marks: Marks<'o>,
) -> Result<RawFunctions, NoMemory>
    requires { Every (DeclarationFits outline.now (marked marks.nodes.now)) outline.now }
    ensures { IfOk result (λ functions. functions ≡ map (function_image outline.now (marked marks.entry.nodes.now)) (plain_functions outline.now)) }
{
    let mut functions = RawFunctions::new(alloc);
    for declaration in outline.declarations() {
        add_function(alloc, outline, marks, &mut functions, declaration)?;
    }
    Ok(functions)
}

fn add_function<'o, 'a>(
    alloc: Global,
    outline: &'o Outline<'a>,
    marks: Marks<'o>,
    functions: &mut RawFunctions,
    declaration: &'a Declaration,
) -> Result<(), NoMemory>
    requires { DeclarationFits outline.now (marked marks.nodes.now) declaration.now }
    ensures { OnOk result ((others : List Declaration) →
        functions.new ++ map (function_image outline.now (marked marks.entry.nodes.now)) (plain_functions others)
        ≡ functions.old ++ map (function_image outline.now (marked marks.entry.nodes.now)) (plain_functions (declaration.now ∷ others))) }
{
    match declaration {
        Declaration::Function(_, result_type, name, formals, block) => {
            if is_same(name.text.as_slice(), b"main".as_slice()) {
                return Ok(());
            }
            let formals = formals_of(formals);
            functions.push(function_of(alloc, outline, marks, result_type, formals, block)?)
        }
        Declaration::Struct(..) => Ok(()),
        Declaration::Class(..) => Ok(()),
    }
}

fn function_of<'o, 'a>(
    alloc: Global,
    outline: &'o Outline<'a>,
    marks: Marks<'o>,
    result_type: &'a TypeName,
    formals: &'a [Formal],
    block: &'a Block,
) -> Result<RawFunction, NoMemory>
    requires { FunctionFits (function_image outline.now (marked marks.nodes.now) (record { name = []; function = record { result = result_type.now; formals = formals.now; body = block.now } })) }
    ensures { IfOk result (λ function. function ≡ function_image outline.now (marked marks.entry.nodes.now) (record { name = []; function = record { result = result_type.now; formals = formals.now; body = block.now } })) }
{
    let words = words_of_one(outline.layout(), result_type);
    let finish = Finish::OfFunction(words, block.mark_line);
    let object = Object {
        class: None,
        parts: &[],
    };
    let list = block.statements.as_slice();
    let body = code_of_body(alloc, outline, marks, finish, object, formals, list)?;
    Ok(RawFunction {
        formals: formals.len() as u32,
        result: words as u32,
        body,
    })
}
