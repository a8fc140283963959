//! What the octets of a side do.

ghost use Rattle.std.specs.Prelude.{◌≡◌, ◌≤◌, length};
ghost use Rattle.bgp_frame.specs.Prelude.{WaitsIn, IsHeldIn};
ghost use Rattle.bgp_guard.specs.Prelude.{listens_in, IsHeardBy, HasRoom, sight_of, types, IsSettled};

use crate::answers::reset;
use crate::came::Came;
use crate::handing::take;
use crate::line::Half;
use crate::rules::Rules;
use crate::stage::Stage;
use crate::way::ROOM;
use bgp_frame::Step;

/// Whether octets of a side are read.
pub(crate) fn listens(stage: Stage, this: &Half, other: &Half) -> bool
    ensures { result ≡ listens_in (sight_of stage this.now other.now) }
{
    match stage {
        Stage::Runs(_) => this.line.stands && other.line.way.len() <= ROOM,
        Stage::Ends(_) => false,
    }
}

/// The result of the octets that are held: where they are whole, nothing is held after it.
fn settle(rules: &Rules, silent: bool, stage: &mut Stage, this: &mut Half, other: &mut Half) -> Came
    requires can_hold { IsHeldIn types this.old.framer }
    requires room { length this.old.line.way ≤ 65536 }
    requires others_room { length other.old.line.way ≤ 53248 }
    ensures settled { IsSettled rules.now silent (sight_of stage.old this.old other.old) result (sight_of stage.new this.new other.new) }
    ensures room { HasRoom stage.new this.new.line.way × HasRoom stage.new other.new.line.way }
    ensures waits { WaitsIn types this.new.framer }
    ensures others_held { other.new.framer ≡ other.old.framer }
{
    match this.framer.step() {
        Step::More => Came::Nothing,
        Step::Frame(frame) => {
            let whole = this.framer.octets();
            let came = take(
                rules,
                silent,
                frame,
                whole,
                stage,
                &mut this.line,
                &mut other.line,
            );
            this.framer.clear();
            came
        }
        Step::Fault(fault) => {
            let why = fault.answer();
            this.framer.clear();
            reset(why.view(), stage, &mut this.line, &mut other.line)
        }
    }
}

/// Reads octets of a side up to the end of a message. Answers the number consumed, and the result.
pub(crate) fn hear(
    rules: &Rules,
    silent: bool,
    stage: &mut Stage,
    this: &mut Half,
    other: &mut Half,
    piece: &[u8],
) -> (usize, Came)
    requires room { HasRoom stage.old this.old.line.way }
    requires others_room { HasRoom stage.old other.old.line.way }
    requires waits { WaitsIn types this.old.framer }
    ensures heard { IsHeardBy rules.now silent (sight_of stage.old this.old other.old) piece.now result.0 result.1 (sight_of stage.new this.new other.new) }
    ensures room { HasRoom stage.new this.new.line.way × HasRoom stage.new other.new.line.way }
    ensures waits { WaitsIn types this.new.framer }
    ensures others_held { other.new.framer ≡ other.old.framer }
{
    if !listens(*stage, this, other) {
        return (0, Came::Nothing);
    }
    let taken = this.framer.feed(piece);
    let came = settle(rules, silent, stage, this, other);
    (taken, came)
}
