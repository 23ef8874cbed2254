//! What the definitions say of literal bytes. So they are neither too strict nor too lax for these.
ghost use Rattle.member_tests.specs.Examples.{MembersAreRead, MembersAreRefused};

/// Literal bytes are members of the texts that they hold. With a byte changed or without the last
/// one, they are refused.
pub fn literal_members_are_read()
    ensures read { MembersAreRead }
    ensures refused { MembersAreRefused }
{}
