//! Values that are printed as text.
ghost use Rattle.std.specs.Prelude.{◌≡◌, ◌++◌, List, ℕ, OnOk, OnErr};
ghost use Rattle.cp_base.specs.Text.{Grew};

use crate::NoMemory;

/// A value that has a text.
pub trait Text {
    /// The text of a value.
    ghost text: { Self → List ℕ };

    /// Appends the text; where memory runs out, a front of it may stand in `out`.
    fn append_text(&self, out: &mut Vec<u8>) -> Result<(), NoMemory>
        ensures ok { OnOk result (out.new.items ≡ out.old.items ++ text self.now) }
        ensures grew { Grew out.old.items out.new.items };

    /// Appends the text, or leaves `out`.
    final fn write_text(&self, out: &mut Vec<u8>) -> Result<(), NoMemory>
        ensures ok { OnOk result (out.new.items ≡ out.old.items ++ text self.now) }
        ensures err { OnErr result (out.new.items ≡ out.old.items) }
    {
        let mark = out.len();
        let written = self.append_text(out);
        if written.is_err() {
            out.truncate(mark);
        }
        written
    }
}
