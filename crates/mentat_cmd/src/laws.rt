ghost use Rattle.std.specs.Prelude.{◌≡◌, ℕ, List};
ghost use Rattle.mentat_io.specs.Shelf.{Files};
ghost use Rattle.mentat_cmd.specs.Answer.{IsCause, IsExact};
ghost use Rattle.mentat_cmd.specs.declared.status.Status.{Status};

use mpl_grammar::faults_exclude_one_another;
use mpl_trees::tokens_have_one_program;

/// Of the answers that come exactly where their cause holds, no two have a cause in one file, one input and one budget.
pub fn causes_exclude_one_another()
    ensures { (budget : ℕ) (files : Files) (name left : List ℕ) (s t : Status) (m n : ℕ) →
        IsExact s → IsExact t → IsCause budget files name left s m → IsCause budget files name left t n → (s ≡ t) × (m ≡ n) }
{
    tokens_have_one_program();
    faults_exclude_one_another();
}
