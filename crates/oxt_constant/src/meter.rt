//! How many bytes of text the constants of a tree may take.
ghost use Rattle.std.specs.Prelude.{◌≡◌, ◌+◌, ◌<◌, ◌≤◌, OnErr, OnOk};
ghost use Rattle.oxt_constant.specs.Metered.{most_text};

use oxt_names::ids::OutOfMemory;

/// How many bytes the texts of the constants of a tree may hold together, and how many may be written to make them: as
/// many as an input may have.
pub const MOST_TEXT: u64 = 16_777_216;

/// A count of bytes of text.
#[derive(Drop)]
pub struct TextMeter {
    /// How many there were so far.
    pub bytes: u64,
}

impl TextMeter {
    /// Nothing was counted yet.
    pub fn new() -> TextMeter
        ensures { result.bytes ≡ 0 }
    {
        TextMeter { bytes: 0 }
    }

    /// Counts as many bytes more.
    ///
    /// # Errors
    ///
    /// Exactly where there are more than [`MOST_TEXT`] then, which is want of memory.
    pub fn count(&mut self, bytes: usize) -> Result<(), OutOfMemory>
        ensures counted { OnOk result (self.new.bytes ≡ self.old.bytes + bytes) }
        ensures within { OnOk result (self.new.bytes ≤ most_text) }
        ensures refused { OnErr result (most_text < self.old.bytes + bytes) }
    {
        match self.bytes.checked_add(bytes as u64) {
            Some(total) => self.settle(total),
            None => Err(OutOfMemory),
        }
    }

    /// So many bytes there are now, if there may be so many.
    fn settle(&mut self, total: u64) -> Result<(), OutOfMemory>
        ensures settled { OnOk result (self.new.bytes ≡ total) }
        ensures within { OnOk result (total ≤ most_text) }
        ensures refused { OnErr result (most_text < total) }
    {
        if total > MOST_TEXT {
            return Err(OutOfMemory);
        }
        self.bytes = total;
        Ok(())
    }
}
