//! Escapes in IRIs and strings (RDF 1.1 N-Quads, productions `UCHAR` and `ECHAR`).
ghost use Rattle.std.specs.Prelude.{◌≡◌, ◌≤◌};
ghost use Rattle.def_patch_texts.specs.Reading.{numbered_at, unicode_at};
ghost use Rattle.lf_nquads.specs.Gives.{Gives, GivesDigit, as_escape};

use crate::characters::hex_digit;
use crate::cursor::Cursor;
use crate::error::Fault;
use def_patch_texts::LineKind;

impl Cursor<'_> {
    // Takes a hexadecimal digit.
    fn hex(&mut self) -> Result<u32, Fault>
        ensures { GivesDigit self.old result self.new }
    {
        match self.next() {
            Some(c) => match hex_digit(c) {
                Some(value) => Ok(value),
                None => Err(Fault::Bad(LineKind::BadEscape)),
            },
            None => Err(Fault::Bad(LineKind::BadEscape)),
        }
    }

    // Takes so many hexadecimal digits, which name a character.
    fn numbered(&mut self, count: u32) -> Result<char, Fault>
        requires { count ≤ 8 }
        ensures { Gives (λ c. (c, self.new)) result (as_escape (numbered_at count self.old)) }
    {
        let mut value: u32 = 0;
        for _place in 0..count {
            let digit = self.hex()?;
            value = value * 16 + digit;
        }
        match char::from_u32(value) {
            Some(c) => Ok(c),
            None => Err(Fault::Bad(LineKind::BadEscape)),
        }
    }

    /// Takes what stands behind the backslash of an escape by number.
    #[tactic(auto, unfolding(def_patch_texts::specs::Reading::unicode_at))]
    pub fn unicode(&mut self) -> Result<char, Fault>
        ensures { Gives (λ c. (c, self.new)) result (as_escape (unicode_at self.old)) }
    {
        match self.next() {
            Some('u') => self.numbered(4),
            Some('U') => self.numbered(8),
            _ => Err(Fault::Bad(LineKind::BadEscape)),
        }
    }
}
