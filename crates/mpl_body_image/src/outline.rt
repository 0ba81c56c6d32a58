ghost use Rattle.std.specs.Prelude.{◌≡◌, ℕ, ◌+◌, ◌≤◌, ◌<◌, ◌^◌, List, ◌∷◌, map, option_map, IfOk};
ghost use Rattle.mpl_ast.specs.declared.program.Declaration.{Declaration};
ghost use Rattle.mpl_mean.specs.Laws.Sizes.{Every};
ghost use Rattle.mpl_mean.specs.Meaning.Layout.{class_named, classes_of};
ghost use Rattle.mpl_body_code.specs.Codes.{number_of_function};
ghost use Rattle.mpl_scope.specs.First.{at, or_else};
ghost use Rattle.mpl_layout.specs.Bounds.{Bounded, StateFits};
ghost use Rattle.mpl_layout.specs.SeenClasses.{class_seen};

use mpl_ast::program::Declaration;
use mpl_layout::class::Class;
use mpl_layout::layout::Layout;
use mpl_scope::first_named::FirstNamed;
use mpl_value::NoMemory;
use std::alloc::Global;
use std::marker::Model;

/// The declarations of a program, and its types, classes and plain functions by their names.
#[derive(Drop)]
pub struct Outline<'a> {
    layout: Layout<'a>,
    /// By their numbers.
    functions: FirstNamed<'a, usize>,
}

impl<'a> Model for Outline<'a> {
    ghost use Rattle.std.specs.Prelude.{List};
    ghost use Rattle.std.specs.Coded.{codes};
    ghost use Rattle.mpl_ast.specs.contracts.expression.Expression as expression;
    ghost use Rattle.mpl_ast.specs.contracts.flow.Flow as flow;
    ghost use Rattle.mpl_ast.specs.contracts.statement.Statement as statement;
    ghost use Rattle.mpl_ast.specs.declared.program.Declaration.{Declaration};
    ghost use Rattle.mpl_body_image.specs.Internal.SeenOutline.{Stands};

    ghost Value = { List Declaration };

    ghost coded = { Prim.hlevel (codes, expression.the_row.coded, flow.the_row.coded, statement.the_row.coded) };

    ghost view = { λ o. o.layout };

    ghost invariant = { λ o. Stands o.layout o.functions };
}

impl<'a> Outline<'a> {
    pub fn of(alloc: Global, declarations: &'a [Declaration]) -> Result<Outline<'a>, NoMemory>
        requires { Bounded declarations.now }
        ensures { IfOk result (λ outline. outline ≡ declarations.now) }
    {
        let layout = Layout::of(alloc, declarations)?;
        let functions = functions_of(alloc, declarations)?;
        Ok(Outline { layout, functions })
    }

    pub fn layout(&self) -> &Layout<'a>
        ensures { result.now ≡ self.now }
    {
        &self.layout
    }

    pub fn declarations(&self) -> &'a [Declaration]
        ensures { result.now ≡ self.now }
    {
        self.layout.declarations()
    }

    pub fn classes(&self) -> &[Class<'a>]
        ensures are { map class_seen result.now ≡ classes_of self.now }
        ensures fit { Every (StateFits self.now) (map class_seen result.now) }
    {
        self.layout.classes()
    }

    pub fn class_named(&self, name: &'a [u8]) -> Option<Class<'a>>
        ensures { option_map class_seen result ≡ class_named name.now (classes_of self.now) }
    {
        self.layout.class_named(name)
    }

    /// The number of a plain function.
    pub fn function_numbered(&self, name: &'a [u8]) -> Option<usize>
        ensures { result ≡ number_of_function 0 name.now self.now }
    {
        self.functions.find(name).copied()
    }
}

// ---- functions

/// The number of the first plain function of each name.
fn functions_of<'a>(
    alloc: Global,
    declarations: &'a [Declaration],
) -> Result<FirstNamed<'a, usize>, NoMemory>
    ensures { IfOk result (λ functions. (name : List ℕ) → at functions name ≡ number_of_function 0 name declarations.now) }
{
    let mut functions = FirstNamed::new(alloc);
    let mut number = 0;
    for declaration in declarations {
        number = add_function(&mut functions, number, declaration)?;
    }
    Ok(functions)
}

/// One more declaration, which may be a function. Answers the number of the next one.
#[tactic(auto, using(crate::proofs::Tables::chosen_number))]
fn add_function<'a>(
    functions: &mut FirstNamed<'a, usize>,
    number: usize,
    declaration: &'a Declaration,
) -> Result<usize, NoMemory>
    requires { number < 2 ^ 63 }
    ensures found { IfOk result (λ next. (q : List ℕ) (others : List Declaration) →
        or_else (at functions.new q) (number_of_function next q others) ≡ or_else (at functions.old q) (number_of_function number q (declaration.now ∷ others))) }
    ensures next { IfOk result (λ next. next ≤ number + 1) }
{
    match declaration {
        Declaration::Function(_, _, name, _, _) => {
            functions.add(name.text.as_slice(), number)?;
            Ok(number + 1)
        }
        Declaration::Struct(..) => Ok(number),
        Declaration::Class(..) => Ok(number),
    }
}
