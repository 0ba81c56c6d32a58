//! What is known in the whole program: types, classes and plain functions by their names.

ghost use Rattle.std.specs.Prelude.{◌≡◌, ◌≤◌, ◌<◌, ℕ, ◌+◌, List, ◌∷◌, length, map, option_map, IfOk, OnOk};
ghost use Rattle.std.specs.Str.{bytes_eq};
ghost use Rattle.mpl_ast.specs.declared.program.Declaration.{Declaration};
ghost use Rattle.mpl_mean.specs.Laws.Sizes.{Every};
ghost use Rattle.mpl_mean.specs.Meaning.Layout.{class_named, classes_of, function_named};
ghost use Rattle.mpl_gen_code.specs.ExpressionCode.{function_number, number_from, plain_functions};
ghost use Rattle.mpl_gen_code.specs.ProgramImage.{selects_of};
ghost use Rattle.mpl_scope.specs.First.{at, or_else};
ghost use Rattle.mpl_layout.specs.Bounds.{Bounded, StateFits};
ghost use Rattle.mpl_layout.specs.SeenClasses.{class_seen};
ghost use Rattle.mpl_gen_scope.specs.Outlines.{result_of};
ghost use Rattle.mpl_gen_scope.specs.SeenSelects.{select_seen};

use mpl_ast::program::Declaration;
use mpl_ast::statement::TypeName;
use mpl_layout::class::Class;
use mpl_layout::layout::Layout;
use mpl_layout::name::is_same;
use mpl_scope::first_named::FirstNamed;
use mpl_value::NoMemory;
use std::alloc::Global;
use std::marker::Model;

/// The declarations of a program, and its types, classes and plain functions by their names.
#[derive(Drop)]
pub struct Outline<'a> {
    layout: Layout<'a>,
    /// By their numbers, `main` not among them.
    functions: FirstNamed<'a, u32>,
    results: FirstNamed<'a, &'a TypeName>,
}

impl<'a> Model for Outline<'a> {
    ghost use Rattle.std.specs.Prelude.{List};
    ghost use Rattle.std.specs.Coded.{codes};
    ghost use Rattle.mpl_ast.specs.contracts.expression.Expression as expression;
    ghost use Rattle.mpl_ast.specs.contracts.flow.Flow as flow;
    ghost use Rattle.mpl_ast.specs.contracts.statement.Statement as statement;
    ghost use Rattle.mpl_ast.specs.declared.program.Declaration.{Declaration};
    ghost use Rattle.mpl_gen_scope.specs.SeenOutline.{Stands};

    ghost Value = { List Declaration };

    ghost coded = { Prim.hlevel (codes, expression.the_row.coded, flow.the_row.coded, statement.the_row.coded) };

    ghost view = { λ o. o.layout };

    ghost invariant = { λ o. Stands o.layout o.functions o.results };
}

impl<'a> Outline<'a> {
    pub fn of(alloc: Global, declarations: &'a [Declaration]) -> Result<Outline<'a>, NoMemory>
        requires { Bounded declarations.now }
        ensures { IfOk result (λ outline. outline ≡ declarations.now) }
    {
        let layout = Layout::of(alloc, declarations)?;
        let functions = functions_of(alloc, declarations)?;
        let results = results_of(alloc, declarations)?;
        Ok(Outline {
            layout,
            functions,
            results,
        })
    }

    pub fn layout(&self) -> &Layout<'a>
        ensures { result.now ≡ self.now }
    {
        &self.layout
    }

    pub fn declarations(&self) -> &'a [Declaration]
        ensures { result.now ≡ self.now }
    {
        self.layout.declarations()
    }

    #[tactic(auto, using(crate::proofs::Selects::selects_are))]
    pub fn classes(&self) -> &[Class<'a>]
        ensures are { map class_seen result.now ≡ classes_of self.now }
        ensures selects { map select_seen result.now ≡ selects_of self.now }
        ensures fit { Every (StateFits self.now) (map class_seen result.now) }
    {
        self.layout.classes()
    }

    pub fn class_named(&self, name: &'a [u8]) -> Option<Class<'a>>
        ensures { option_map class_seen result ≡ class_named name.now (classes_of self.now) }
    {
        self.layout.class_named(name)
    }

    /// The number of a plain function.
    pub fn function_number(&self, name: &'a [u8]) -> Option<u32>
        ensures { result ≡ function_number self.now name.now }
    {
        self.functions.find(name).copied()
    }

    /// The type of the result of a function.
    pub fn result_of(&self, name: &'a [u8]) -> Option<&'a TypeName>
        ensures { option_map (λ type. type.now) result ≡ option_map result_of (function_named name.now self.now) }
    {
        self.results.find(name).copied()
    }
}

// ---- functions

/// The number of the first plain function of each name.
fn functions_of<'a>(
    alloc: Global,
    declarations: &'a [Declaration],
) -> Result<FirstNamed<'a, u32>, NoMemory>
    requires { length declarations.now ≤ 4096 }
    ensures { IfOk result (λ functions. (name : List ℕ) → at functions name ≡ function_number declarations.now name) }
{
    let mut functions = FirstNamed::new(alloc);
    let mut number = 0;
    for declaration in declarations {
        number = add_function(&mut functions, number, declaration)?;
    }
    Ok(functions)
}

/// One more declaration, which may be a plain function. Answers the number of the next one.
#[tactic(auto, using(crate::proofs::Tables::chosen_number))]
fn add_function<'a>(
    functions: &mut FirstNamed<'a, u32>,
    number: u32,
    declaration: &'a Declaration,
) -> Result<u32, NoMemory>
    requires { number < 4096 }
    ensures found { IfOk result (λ next. (q : List ℕ) (others : List Declaration) →
        or_else (at functions.new q) (number_from next q (plain_functions others)) ≡ or_else (at functions.old q) (number_from number q (plain_functions (declaration.now ∷ others)))) }
    ensures next { IfOk result (λ next. next ≤ number + 1) }
{
    match declaration {
        Declaration::Function(_, _, name, _, _) => {
            let name = name.text.as_slice();
            if is_same(name, b"main".as_slice()) {
                return Ok(number);
            }
            functions.add(name, number)?;
            Ok(number + 1)
        }
        Declaration::Struct(..) => Ok(number),
        Declaration::Class(..) => Ok(number),
    }
}

/// The type of the result of the first function of each name.
fn results_of<'a>(
    alloc: Global,
    declarations: &'a [Declaration],
) -> Result<FirstNamed<'a, &'a TypeName>, NoMemory>
    ensures { IfOk result (λ results. (name : List ℕ) → option_map (λ type. type.now) (at results name) ≡ option_map result_of (function_named name declarations.now)) }
{
    let mut results = FirstNamed::new(alloc);
    for declaration in declarations {
        add_result(&mut results, declaration)?;
    }
    Ok(results)
}

#[tactic(auto, using(crate::proofs::Tables::chosen_result))]
fn add_result<'a>(
    results: &mut FirstNamed<'a, &'a TypeName>,
    declaration: &'a Declaration,
) -> Result<(), NoMemory>
    ensures { OnOk result ((q : List ℕ) (others : List Declaration) →
        or_else (option_map (λ type. type.now) (at results.new q)) (option_map result_of (function_named q others))
        ≡ or_else (option_map (λ type. type.now) (at results.old q)) (option_map result_of (function_named q (declaration.now ∷ others)))) }
{
    match declaration {
        Declaration::Function(_, result_type, name, _, _) => {
            results.add(name.text.as_slice(), result_type)
        }
        Declaration::Struct(..) => Ok(()),
        Declaration::Class(..) => Ok(()),
    }
}
