//! The configuration that a change makes.
ghost use Rattle.std.specs.Prelude.{◌≡◌, IfOk};
ghost use Rattle.cp_rules.specs.Changes.{with_member, without_member, changed};
ghost use Rattle.cp_parts.specs.declared.config.Config.{Config};

use cp_base::{Items, NoMemory};
use cp_parts::Config;
use cp_rules::Change;
use std::alloc::Global;

/// Members with one more, by rising number.
fn with_member(alloc: Global, member: u8, members: &[u8]) -> Result<Vec<u8>, NoMemory>
    ensures { IfOk result (λ made. made.items ≡ with_member member members.now) }
{
    let mut made = Vec::new(alloc);
    let mut rest = members;
    while let [first, others @ ..] = rest {
        if member < *first {
            made.push(member)?;
            made.extend_from_slice(rest)?;
            return Ok(made);
        }
        made.push(*first)?;
        rest = others;
    }
    made.push(member)?;
    Ok(made)
}

/// Members without one of them.
fn without_member(alloc: Global, member: u8, members: &[u8]) -> Result<Vec<u8>, NoMemory>
    ensures { IfOk result (λ made. made.items ≡ without_member member members.now) }
{
    let mut made = Vec::new(alloc);
    let mut rest = members;
    while let [first, others @ ..] = rest {
        if *first == member {
            made.extend_from_slice(others)?;
            return Ok(made);
        }
        made.push(*first)?;
        rest = others;
    }
    Ok(made)
}

/// The members after a change, by rising number.
pub fn changed(alloc: Global, change: &Change, members: &[u8]) -> Result<Items<u8>, NoMemory>
    ensures { IfOk result (λ made. made ≡ changed change.now members.now) }
{
    let made = if change.add {
        with_member(alloc, change.member.0, members)?
    } else {
        without_member(alloc, change.member.0, members)?
    };
    Ok(Items::from_vec(made))
}

/// The configuration after a change, which an entry at this index brings; `plan` is the number of the plan that it
/// follows, or 0.
pub fn changed_config(
    alloc: Global,
    change: &Change,
    config: &Config,
    index: u64,
    plan: u64,
) -> Result<Config, NoMemory>
    ensures { IfOk result (λ made. made ≡ record { index = index; plan = plan; members = changed change.now config.now.members }) }
{
    let members = changed(alloc, change, config.members.as_slice())?;
    Ok(Config {
        index,
        plan,
        members,
    })
}
