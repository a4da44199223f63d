//! The words of texts.
ghost use Rattle.std.specs.Prelude.{◌≡◌, ◌++◌, OnOk};
ghost use Rattle.cp_base.specs.Text.{Grew};
ghost use Rattle.cp_message.specs.Texts.{numbers_text, yes_text};

use cp_base::{NoMemory, write_decimal};

/// Appends the decimal of each number after a space.
#[tactic(auto, unfolding(crate::specs::Texts::numbers_text))]
pub fn append_numbers_text(numbers: &[u64], out: &mut Vec<u8>) -> Result<(), NoMemory>
    ensures ok { OnOk result (out.new.items ≡ out.old.items ++ numbers_text numbers.now) }
    ensures grew { Grew out.old.items out.new.items }
{
    let mut rest = numbers;
    while let [number, after @ ..] = rest {
        out.push(b' ')?;
        write_decimal(*number, out)?;
        rest = after;
    }
    Ok(())
}

/// Appends the number of each member after a space.
#[tactic(auto, unfolding(crate::specs::Texts::numbers_text))]
pub fn append_members_text(members: &[u8], out: &mut Vec<u8>) -> Result<(), NoMemory>
    ensures ok { OnOk result (out.new.items ≡ out.old.items ++ numbers_text members.now) }
    ensures grew { Grew out.old.items out.new.items }
{
    let mut rest = members;
    while let [member, after @ ..] = rest {
        out.push(b' ')?;
        write_decimal(u64::from(*member), out)?;
        rest = after;
    }
    Ok(())
}

/// Appends `yes` or `no` after a space.
pub fn append_yes_text(truth: bool, out: &mut Vec<u8>) -> Result<(), NoMemory>
    ensures ok { OnOk result (out.new.items ≡ out.old.items ++ yes_text truth) }
    ensures grew { Grew out.old.items out.new.items }
{
    if truth {
        out.extend_from_slice(b" yes")?;
    } else {
        out.extend_from_slice(b" no")?;
    }
    Ok(())
}
