// Pin lists that are read.
ghost use Rattle.std.specs.Prelude.{◌≤◌, take};
ghost use Rattle.refusal.specs.Trays.{row_tray};
ghost use Rattle.channel.specs.Channel.{rows};
ghost use Rattle.channel.specs.Answers.{Escapes};

use crate::{INPUT_LIMIT, Unread};
use refusal::ROW_TRAY;

// The rows of a pin list that is within the limit and not refused: the fronts of two tables.
#[derive(Drop)]
pub struct Pins {
    top: [u32; ROW_TRAY],
    bot: [u32; ROW_TRAY],
    width: usize,
    ghost narrow: { width ≤ row_tray },
    ghost escape: { Escapes (rows (take width top) (take width bot)) },
}

impl Pins {
    // imported here and not above, since these definitions are of `Pins` itself
    ghost use Rattle.std.specs.Prelude.{◌≡◌, IfErr, IfOk};
    ghost use Rattle.programs.specs.Code.{top_of, bot_of, PinsUnread, PinsRead};

    // Reads a pin list.
    pub fn read(text: &[u8]) -> Result<Pins, Unread>
        ensures read { IfOk result (PinsRead text.now) }
        ensures unread { IfErr result (PinsUnread text.now) }
    {
        if INPUT_LIMIT < text.len() {
            return Err(Unread::OverLimit);
        }
        let mut top = [0u32; ROW_TRAY];
        let mut bot = [0u32; ROW_TRAY];
        let width = pinlist::read(text, &mut top, &mut bot)?;
        Ok(Pins { top, bot, width })
    }

    pub fn top(&self) -> &[u32]
        ensures { result.now ≡ top_of self.now }
    {
        &self.top[..self.width]
    }

    pub fn bot(&self) -> &[u32]
        ensures { result.now ≡ bot_of self.now }
    {
        &self.bot[..self.width]
    }
}
