//! The length of logs.
ghost use Rattle.std.specs.Prelude.{◌≡◌, ◌≤◌, true, length};
ghost use Rattle.mdf_code.specs.Images.{is_image};
ghost use Rattle.mdf_core.specs.Enabled.{IsLog};
ghost use Rattle.mdf_core.specs.Steps.{Log, after};
ghost use Rattle.mdf_core.specs.Worlds.{Job};
ghost use Rattle.mdf_finite.specs.Lengths.{most_events};

/// A log has few events for its turns.
pub fn logs_are_short()
    ensures { (job : Job) (log : Log) → is_image job.image ≡ true → IsLog job log → length log ≤ most_events (after job log).turns }
{}
