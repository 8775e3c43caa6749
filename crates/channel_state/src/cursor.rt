// Takes the fields of an image off its bytes, one after another. Nothing here takes memory.
ghost use Rattle.std.specs.Prelude.{◌≡◌, ◌≤◌, ◌<◌, ◌==◌, ◌&&◌, ◌||◌, ◌++◌, not, nat_le, suc, [], length, option_map};
ghost use Rattle.std.specs.Int.{w32, w64};
ghost use Rattle.flow_defs.specs.Jobs.{IsJob, last_edge};
ghost use Rattle.job_text.specs.Shapes.{job_of};
ghost use Rattle.channel_state.specs.Reading.{byte, flag, number, piece, mark, tested, nothing};
ghost use Rattle.channel_state.specs.ImageFaults.{is_text, is_key, is_sender, may_save, are_records};
ghost use Rattle.channel_state.specs.Outcomes.{Gives, Passes};

use crate::TEXT_MOST;
use crate::places::is_channel;
use flow_defs::RECORD_MAX;
use job_text::{JobShape, read_shape};

// A field is cut or doesn't say what it has to. So many bytes are left from its first one on.
#[derive(Clone, Copy, Debug, PartialEq, Eq)]
pub(crate) struct Fault {
    pub left: usize,
}

// The bytes of an image that are left.
#[derive(Clone, Copy)]
pub(crate) struct Cursor<'a> {
    pub rest: &'a [u8],
}

impl<'a> Cursor<'a> {
    // Takes these bytes.
    pub fn mark(&mut self, text: &[u8]) -> Result<(), Fault>
        ensures { Passes self.new.rest.now result (mark text.now self.old.rest.now) }
    {
        if !self.rest.starts_with(text) {
            return Err(Fault {
                left: self.rest.len(),
            });
        }
        self.rest = &self.rest[text.len()..];
        Ok(())
    }

    fn byte(&mut self) -> Result<u8, Fault>
        ensures { Gives (λ b. b) self.new.rest.now result (byte self.old.rest.now) }
    {
        match self.rest {
            [] => Err(Fault { left: 0 }),
            [b, rest @ ..] => {
                self.rest = rest;
                Ok(*b)
            }
        }
    }

    // Takes the version, which is 1.
    #[tactic(auto, unfolding(crate::specs::Reading::tested))]
    pub fn version(&mut self) -> Result<u8, Fault>
        ensures { Gives (λ b. b) self.new.rest.now result (tested (λ version. version == 1) byte self.old.rest.now) }
    {
        let left = self.rest.len();
        let version = self.byte()?;
        if version != 1 {
            return Err(Fault { left });
        }
        Ok(version)
    }

    pub fn flag(&mut self) -> Result<bool, Fault>
        ensures { Gives (λ flag. flag) self.new.rest.now result (flag self.old.rest.now) }
    {
        match self.rest {
            [0, rest @ ..] => {
                self.rest = rest;
                Ok(false)
            }
            [1, rest @ ..] => {
                self.rest = rest;
                Ok(true)
            }
            other => Err(Fault { left: other.len() }),
        }
    }

    pub fn u32(&mut self) -> Result<u32, Fault>
        ensures { Gives (λ n. n) self.new.rest.now result (number w32 self.old.rest.now) }
    {
        if self.rest.len() < 4 {
            return Err(Fault {
                left: self.rest.len(),
            });
        }
        let (front, rest) = self.rest.split_at(4);
        self.rest = rest;
        Ok(u32::from_be_bytes([front[0], front[1], front[2], front[3]]))
    }

    pub fn u64(&mut self) -> Result<u64, Fault>
        ensures { Gives (λ n. n) self.new.rest.now result (number w64 self.old.rest.now) }
    {
        if self.rest.len() < 8 {
            return Err(Fault {
                left: self.rest.len(),
            });
        }
        let (front, rest) = self.rest.split_at(8);
        self.rest = rest;
        Ok(u64::from_be_bytes([
            front[0], front[1], front[2], front[3], front[4], front[5], front[6], front[7],
        ]))
    }

    // Takes a number that is at least 1.
    #[tactic(auto, unfolding(crate::specs::Reading::tested))]
    pub fn some(&mut self) -> Result<u64, Fault>
        ensures { Gives (λ n. n) self.new.rest.now result (tested (nat_le 1) (number w64) self.old.rest.now) }
    {
        let left = self.rest.len();
        let number = self.u64()?;
        if number < 1 {
            return Err(Fault { left });
        }
        Ok(number)
    }

    // Takes a length and that many bytes.
    #[tactic(auto, unfolding(crate::specs::Reading::piece))]
    pub fn piece(&mut self) -> Result<&'a [u8], Fault>
        ensures { Gives (λ piece. piece.now) self.new.rest.now result (piece self.old.rest.now) }
    {
        let left = self.rest.len();
        let len = self.u32()? as usize;
        if self.rest.len() < len {
            return Err(Fault { left });
        }
        let (piece, rest) = self.rest.split_at(len);
        self.rest = rest;
        Ok(piece)
    }

    // Takes the text of a job.
    #[tactic(auto, unfolding(crate::specs::Reading::tested))]
    pub fn text(&mut self) -> Result<&'a [u8], Fault>
        ensures { Gives (λ text. text.now) self.new.rest.now result (tested is_text piece self.old.rest.now) }
    {
        let left = self.rest.len();
        let text = self.piece()?;
        if !is_text(text) {
            return Err(Fault { left });
        }
        Ok(text)
    }

    // Takes the flag of a source, which is at its end in a last image.
    #[tactic(auto, unfolding(crate::specs::Reading::tested))]
    pub fn ended(&mut self, last: bool) -> Result<bool, Fault>
        ensures { Gives (λ ended. ended) self.new.rest.now result (tested (λ ended. not last || ended) flag self.old.rest.now) }
    {
        let left = self.rest.len();
        let ended = self.flag()?;
        if last && !ended {
            return Err(Fault { left });
        }
        Ok(ended)
    }

    // Takes a key of a table behind another one.
    #[tactic(auto, unfolding(crate::specs::Reading::tested))]
    pub fn key(&mut self, before: Option<&[u8]>) -> Result<&'a [u8], Fault>
        ensures { Gives (λ key. key.now) self.new.rest.now result (tested (is_key (option_map (λ key. key.now) before.entry)) piece self.old.rest.now) }
    {
        let left = self.rest.len();
        let key = self.piece()?;
        if !is_key(before, key) {
            return Err(Fault { left });
        }
        Ok(key)
    }

    // Takes the sending task of a run of a task behind an edge, behind a run of another sender.
    #[tactic(auto, unfolding(crate::specs::Reading::tested))]
    pub fn sender(
        &mut self,
        shape: &JobShape,
        edge: usize,
        to: usize,
        before: Option<u32>,
    ) -> Result<u32, Fault>
        requires job { IsJob (job_of shape.now) }
        requires edge { edge ≤ last_edge (job_of shape.now) }
        ensures { Gives (λ from. from) self.new.rest.now result (tested (is_sender (job_of shape.now) edge to before) (number w32) self.old.rest.now) }
    {
        let left = self.rest.len();
        let from = self.u32()?;
        if !is_channel(shape, edge, from as usize, to) || before == Some(from) {
            return Err(Fault { left });
        }
        Ok(from)
    }

    // Takes the first saved piece of a channel.
    #[tactic(auto, unfolding(crate::specs::Reading::tested))]
    pub fn saved_in(&mut self, last: bool) -> Result<&'a [u8], Fault>
        ensures { Gives (λ saved. saved.now) self.new.rest.now result (tested (may_save last) piece self.old.rest.now) }
    {
        let left = self.rest.len();
        let saved = self.piece()?;
        if last && !saved.is_empty() {
            return Err(Fault { left });
        }
        Ok(saved)
    }

    // Takes the second one.
    #[tactic(auto, unfolding(crate::specs::Reading::tested))]
    pub fn saved_out(&mut self, last: bool, saved_in: &[u8]) -> Result<&'a [u8], Fault>
        ensures { Gives (λ saved. saved.now) self.new.rest.now result
            (tested (λ saved. may_save last saved && are_records (saved_in.now ++ saved)) piece self.old.rest.now) }
    {
        let left = self.rest.len();
        let saved = self.piece()?;
        if last && !saved.is_empty() || !are_records(saved_in, saved) {
            return Err(Fault { left });
        }
        Ok(saved)
    }

    // Nothing is left.
    pub fn end(&self) -> Result<(), Fault>
        ensures { Passes [] result (nothing self.now.rest.now) }
    {
        match self.rest {
            [] => Ok(()),
            rest => Err(Fault { left: rest.len() }),
        }
    }
}

// Whether this is the text of a job.
fn is_text(text: &[u8]) -> bool
    ensures { result ≡ is_text text.now }
{
    text.len() <= TEXT_MOST && read_shape(text).is_ok()
}

// Whether this may be the key behind another one.
fn is_key(before: Option<&[u8]>, key: &[u8]) -> bool
    ensures { result ≡ is_key (option_map (λ key. key.now) before.entry) key.now }
{
    if key.len() > RECORD_MAX {
        return false;
    }
    match before {
        None => true,
        Some(other) => other.cmp(key).is_lt(),
    }
}

// Whether two pieces, laid end to end, are records, as the format tests it.
fn are_records(first: &[u8], second: &[u8]) -> bool
    ensures { result ≡ are_records (first.now ++ second.now) }
{
    record_spans::are_records(first, second)
}
