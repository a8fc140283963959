//! Events without octets, as one side sees them.

ghost use Rattle.std.specs.Prelude.{◌≡◌, ◌≤◌, length, true};
ghost use Rattle.bgp_frame.specs.Prelude.{short_value, WaitsIn};
ghost use Rattle.bgp_guard.specs.Prelude.{closed, cut_if, stalled, unreached, HasRoom, sight_of, types};

use crate::answers::{expired, rejected, tell};
use crate::line::Half;
use crate::stage::{DRAIN_SECONDS, Stage};
use bgp_frame::ShortNotification;

/// A side gets nothing more, and the other is sent the reason.
fn cut(why: ShortNotification, stage: &mut Stage, this: &mut Half, other: &mut Half)
    requires { length other.old.line.way ≤ 65536 }
    ensures after { sight_of stage.new this.new other.new ≡ cut_if true (short_value why) (sight_of stage.old this.old other.old) }
    ensures held { this.new.framer ≡ this.old.framer }
    ensures others_held { other.new.framer ≡ other.old.framer }
{
    this.line.way.clear();
    tell(why.view(), &mut other.line.way);
    *stage = Stage::Ends(DRAIN_SECONDS);
}

/// A side that isn't up can't be reached.
pub(crate) fn unreachable(stage: &mut Stage, this: &mut Half, other: &mut Half)
    requires room { HasRoom stage.old this.old.line.way }
    requires others_room { HasRoom stage.old other.old.line.way }
    ensures after { sight_of stage.new this.new other.new ≡ unreached (sight_of stage.old this.old other.old) }
    ensures room { HasRoom stage.new this.new.line.way }
    ensures others_room { HasRoom stage.new other.new.line.way }
    ensures held { this.new.framer ≡ this.old.framer }
    ensures others_held { other.new.framer ≡ other.old.framer }
{
    match *stage {
        Stage::Runs(_) if !this.line.stands => cut(rejected(), stage, this, other),
        _ => {}
    }
}

/// What is queued for a side hasn't moved for the Hold Time.
pub(crate) fn stall(stage: &mut Stage, this: &mut Half, other: &mut Half)
    requires room { HasRoom stage.old this.old.line.way }
    requires others_room { HasRoom stage.old other.old.line.way }
    ensures after { sight_of stage.new this.new other.new ≡ stalled (sight_of stage.old this.old other.old) }
    ensures room { HasRoom stage.new this.new.line.way }
    ensures others_room { HasRoom stage.new other.new.line.way }
    ensures held { this.new.framer ≡ this.old.framer }
    ensures others_held { other.new.framer ≡ other.old.framer }
{
    match *stage {
        Stage::Runs(_) => cut(expired(), stage, this, other),
        Stage::Ends(_) => {}
    }
}

/// A side has closed.
pub(crate) fn close(stage: &mut Stage, this: &mut Half)
    ensures after { (k : Half) → sight_of stage.new this.new k ≡ closed (sight_of stage.old this.old k) }
    ensures waits { WaitsIn types this.old.framer → WaitsIn types this.new.framer }
{
    if !this.line.stands {
        return;
    }
    this.line.stands = false;
    this.line.way.clear();
    this.framer.clear();
    if let Stage::Runs(_) = *stage {
        *stage = Stage::Ends(DRAIN_SECONDS);
    }
}
