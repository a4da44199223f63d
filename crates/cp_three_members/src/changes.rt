//! Rows on changes of members.

use crate::replies::show_refusal;
use crate::rows::RowsEnd;
use crate::words::{bytes, index, member, show_bytes, show_number};
use cp_base::MemberNo;
use cp_change::{changed, changed_config, may_change};
use cp_parts::Config;
use cp_rules::Change;
use std::alloc::Global;

/// A change: `add` or `remove`, the member, and the index of the configuration that is expected.
fn change_of(kind: &str, who: &str, expected: &str) -> Result<Change, RowsEnd> {
    let add = kind == "add";
    if !add && kind != "remove" {
        return Err(RowsEnd::BadInput);
    }
    let member = MemberNo(member(who)?);
    let expected = index(expected)?;
    Ok(Change {
        add,
        member,
        expected,
    })
}

/// A configuration that follows no plan.
fn config_of(alloc: Global, at: &str, members: &str) -> Result<Config, RowsEnd> {
    let index = index(at)?;
    let members = bytes(alloc, members)?;
    Ok(Config {
        index,
        plan: 0,
        members,
    })
}

/// `may-change INDEX MEMBERS add|remove MEMBER EXPECTED COMMIT COMMITTED-TERM TERM`: `yes`, or what refuses the change.
pub fn may_change_row(alloc: Global, words: &[&str], out: &mut Vec<u8>) -> Result<(), RowsEnd> {
    let [
        at,
        members,
        kind,
        who,
        expected,
        commit,
        committed_term,
        term,
    ] = words
    else {
        return Err(RowsEnd::BadInput);
    };
    let config = config_of(alloc, at, members)?;
    let change = change_of(kind, who, expected)?;
    let allowed = may_change(
        &config,
        &change,
        index(commit)?,
        index(committed_term)?,
        index(term)?,
    );
    Ok(show_refusal(allowed, out)?)
}

/// `new-members MEMBERS add|remove MEMBER`: the members after the change.
pub fn new_members_row(alloc: Global, words: &[&str], out: &mut Vec<u8>) -> Result<(), RowsEnd> {
    let [members, kind, who] = words else {
        return Err(RowsEnd::BadInput);
    };
    let members = bytes(alloc, members)?;
    let change = change_of(kind, who, "0")?;
    let made = changed(alloc, &change, members.as_slice())?;
    Ok(show_bytes(made.as_slice(), out)?)
}

/// `new-config INDEX MEMBERS add|remove MEMBER ENTRY PLAN`: the index, the plan and the members of the configuration after
/// the change.
pub fn new_config_row(alloc: Global, words: &[&str], out: &mut Vec<u8>) -> Result<(), RowsEnd> {
    let [at, members, kind, who, entry, plan] = words else {
        return Err(RowsEnd::BadInput);
    };
    let config = config_of(alloc, at, members)?;
    let change = change_of(kind, who, at)?;
    let made = changed_config(alloc, &change, &config, index(entry)?, index(plan)?)?;
    show_number(made.index, out)?;
    show_number(made.plan, out)?;
    Ok(show_bytes(made.members.as_slice(), out)?)
}
