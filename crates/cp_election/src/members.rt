//! The members of a configuration.
ghost use Rattle.std.specs.Prelude.{◌≡◌};
ghost use Rattle.cp_rules.specs.Persistent.{is_member};

/// Whether a member is one of these.
pub fn is_member(member: u8, members: &[u8]) -> bool
    ensures { result ≡ is_member member members.now }
{
    members.iter().any(|m| *m == member)
}
