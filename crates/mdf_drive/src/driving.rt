//! The drive list of machines of programs without persistent objects.
ghost use Rattle.std.specs.Prelude.{ℕ, ◌≡◌, ◌+◌, ◌++◌, Bool, List, length, slice_get};
ghost use Rattle.mdf_core.specs.declared.status.MachineStatus.TheVariants.{Going};
ghost use Rattle.mdf_core.specs.DriveList.{due_items, items};
ghost use Rattle.mdf_core.specs.Enabled.{IsLog};
ghost use Rattle.mdf_core.specs.Steps.{Log, after};
ghost use Rattle.mdf_core.specs.Worlds.{Job};
ghost use Rattle.mdf_drive.specs.DriveOrder.{MarksWhoGoes, item_at, marked, next_items};
ghost use Rattle.mdf_drive.specs.Plain.{IsPlain};

/// What may come next in a program without persistent objects are the due tokens, and then the actors that can go on, in
/// the order of their serials.
pub fn tokens_are_matched_and_actors_go_on()
    ensures items { (job : Job) (log : Log) (marks : List Bool) → IsPlain job → IsLog job log → (after job log).why ≡ Going → MarksWhoGoes (after job log) marks → items job (after job log) ≡ due_items (after job log) ++ next_items (after job log) marks }
    ensures many { (job : Job) (log : Log) (marks : List Bool) → IsPlain job → IsLog job log → (after job log).why ≡ Going → MarksWhoGoes (after job log) marks → length (items job (after job log)) ≡ length (after job log).due + length (marked marks) }
    ensures at { (job : Job) (log : Log) (marks : List Bool) → IsPlain job → IsLog job log → (after job log).why ≡ Going → MarksWhoGoes (after job log) marks → (place : ℕ) → slice_get (items job (after job log)) place ≡ item_at (after job log) marks place }
{}
