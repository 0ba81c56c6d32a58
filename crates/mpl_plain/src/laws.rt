ghost use Rattle.std.specs.Prelude.{◌≡◌, ℕ, List, Some, true};
ghost use Rattle.mpl_ast.specs.declared.expression.Expression.{Expression};
ghost use Rattle.mpl_ast.specs.declared.flow.Call.{Call};
ghost use Rattle.mpl_ast.specs.declared.flow.Flow.{Flow};
ghost use Rattle.mpl_ast.specs.declared.statement.Statement.{Statement};
ghost use Rattle.mpl_ast.specs.declared.program.Program.{Program};
ghost use Rattle.mpl_value.specs.declared.body.MemberId.{MemberId};
ghost use Rattle.mpl_mean.specs.Laws.Sizes.{member_of_id};
ghost use Rattle.mpl_mean.specs.Meaning.BodyMeaning.{main_statements, run};
ghost use Rattle.mpl_mean.specs.Meaning.CallMeaning.{call_value, passes, whole_name};
ghost use Rattle.mpl_mean.specs.Meaning.Context.{Context};
ghost use Rattle.mpl_mean.specs.Meaning.ExpressionMeaning.{value_of};
ghost use Rattle.mpl_mean.specs.Meaning.Layout.{Class, Function, Member, class_named, classes_of, function_named, member_named};
ghost use Rattle.mpl_mean.specs.Meaning.StatementMeaning.{does};
ghost use Rattle.mpl_mean.specs.Plain.Expr.{expr_of, expr_of_call, expr_of_flow};
ghost use Rattle.mpl_mean.specs.Plain.Scopes.{function_env, main_env, member_env, regular_env};
ghost use Rattle.mpl_mean.specs.Plain.Stmt.{stmt_of, stmts_from, stmts_of};
ghost use Rattle.mpl_mean.specs.TypeRules.Rules.{is_typed};
ghost use Rattle.mpl_plain.specs.Arity.{StatementsFit};
ghost use Rattle.mpl_plain.specs.ExprMeaning.{tree_name, tree_passes, tree_value};
ghost use Rattle.mpl_plain.specs.StmtMeaning.{tree_does, trees_run};

/// An expression, a flow, a call, a statement and the statements of a body mean what the plain trees mean that are made
/// of them.
pub fn plain_trees_mean_the_same()
    ensures values { (e : Expression) → value_of e ≡ tree_value (expr_of e) }
    ensures names { (e : Expression) → whole_name e ≡ tree_name (expr_of e) }
    ensures flows { (f : Flow) → passes f ≡ tree_passes (expr_of_flow f) }
    ensures calls { (call : Call) → call_value call ≡ tree_passes (expr_of_call call) }
    ensures statements { (s : Statement) (context : Context) → does s context ≡ tree_does (stmt_of s) context }
    ensures bodies { (context : Context) (statements : List Statement) → run context statements ≡ trees_run context (stmts_from statements) }
{}

/// In a well typed program each call in place has as many arguments as formals: in `main`, in each function, and in each
/// member, as it is called in place and as it is called on its object.
pub fn calls_have_their_arguments()
    ensures main { (p : Program) → is_typed p ≡ true → StatementsFit (main_env p.declarations) (stmts_from (main_statements p.declarations)) }
    ensures function { (p : Program) (name : List ℕ) (f : Function) → is_typed p ≡ true → function_named name p.declarations ≡ Some f →
        StatementsFit (function_env p.declarations f) (stmts_of f.body) }
    ensures regular { (p : Program) (name member : List ℕ) (class : Class) (m : Member) → is_typed p ≡ true →
        class_named name (classes_of p.declarations) ≡ Some class → class.is_regular ≡ true → member_named member class.members ≡ Some m →
        StatementsFit (regular_env p.declarations m) (stmts_of m.body) }
    ensures member { (p : Program) (id : MemberId) (found : Class × Member) → is_typed p ≡ true → member_of_id p.declarations id ≡ Some found →
        StatementsFit (member_env p.declarations found.0 found.1) (stmts_of found.1.body) }
{}
