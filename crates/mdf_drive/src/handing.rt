//! What the frames of a machine hand out.
ghost use Rattle.std.specs.Prelude.{ℕ, ◌≡◌, true, length};
ghost use Rattle.mdf_code.specs.Images.{is_image};
ghost use Rattle.mdf_code.specs.Told.{Stood};
ghost use Rattle.mdf_core.specs.Enabled.{IsLog, StopsAt};
ghost use Rattle.mdf_core.specs.Steps.{Log, after};
ghost use Rattle.mdf_core.specs.Worlds.{Job};
ghost use Rattle.mdf_drive.specs.Handing.{HandsOut};

/// Where a running frame halts, it hands out little: a call has few arguments, and known words among them are few, and so
/// are those that are given. What isn't known is the result of a call that the actor made. Its state has as many words as
/// at its start.
pub fn frames_hand_out_little()
    ensures out { (job : Job) (log : Log) → is_image job.image ≡ true → IsLog job log → (a turns : ℕ) (stood : Stood) → StopsAt job (after job log) a turns stood → HandsOut (after job log) a stood.halt }
    ensures state { (job : Job) (log : Log) → IsLog job log → (a turns : ℕ) (stood : Stood) → StopsAt job (after job log) a turns stood → length stood.frame.state ≡ length ((after job log).actors a).start.state }
{}
