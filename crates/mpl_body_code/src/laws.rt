ghost use Rattle.std.specs.Prelude.{◌≡◌, ◌<◌, ℕ, Some, None};
ghost use Rattle.mpl_ast.specs.declared.program.Program.{Program};
ghost use Rattle.mpl_value.specs.declared.body.BodyStart.{BodyStart};
ghost use Rattle.mpl_value.specs.declared.body.MemberId.{MemberId};
ghost use Rattle.mpl_mean.specs.Laws.Sizes.{member_of_id};
ghost use Rattle.mpl_mean.specs.Meaning.BodyMeaning.{main_statements, yield_of};
ghost use Rattle.mpl_mean.specs.Meaning.Layout.{Class, Member};
ghost use Rattle.mpl_mean.specs.Plain.Stmt.{stmts_from};
ghost use Rattle.mpl_mean.specs.Plain.Scopes.{main_env, member_env};
ghost use Rattle.mpl_body_code.specs.Images.{ComesTo, HasCode, IsBodyCode, IsMemberCode, main_machine, member_machine};
ghost use Rattle.mpl_body_code.specs.Machine.{Machine, Setting, Goes};
ghost use Rattle.mpl_body_code.specs.Steps.{step};
ghost use Rattle.mpl_body_code.specs.StepsLeft.{steps_left};
ghost use Rattle.mpl_body_code.specs.declared.instruction.MemberCode.{MemberCode};

/// Where an image has the code of a program's functions and members, the code of a body comes from any start to what the
/// body means, whatever the replies and the turns.
pub fn code_does_what_bodies_mean()
    ensures main { (S : Setting) (p : Program) (start : BodyStart) (entry : ℕ) → start.member ≡ None → HasCode S p.declarations →
        IsBodyCode S (main_env p.declarations) (stmts_from (main_statements p.declarations)) entry →
        ComesTo S (main_machine start entry) (yield_of p start S.replies S.turns) }
    ensures member { (S : Setting) (p : Program) (start : BodyStart) (id : MemberId) (found : Class × Member) (code : MemberCode) →
        start.member ≡ Some id → member_of_id p.declarations id ≡ Some found → HasCode S p.declarations →
        IsMemberCode S (member_env p.declarations found.0 found.1) found.1 code →
        ComesTo S (member_machine p.declarations start found.1 code) (yield_of p start S.replies S.turns) }
{}

/// With each step fewer are left: no run of code goes on for ever.
pub fn steps_run_out()
    ensures { (S : Setting) (x z : Machine) → step S x ≡ Goes z → steps_left S z < steps_left S x }
{}
