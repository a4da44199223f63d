//! The law of fields.
ghost use Rattle.cp_codec.specs.Exact.{FieldsAreExact};

/// Each value of a field has one spelling: it is read again from it whatever follows, what is read is spelled so, and
/// no spelling begins another.
pub fn fields_are_exact()
    ensures { FieldsAreExact }
{}
