//! A plain object with the texts of the members that a line's JSON object has.
ghost use Rattle.std.specs.Prelude.{◌≡◌, ◌++◌, IfOk, length, string_bytes, option_map};
ghost use Rattle.cdxj_objects.specs.FoundMembers.{raw_text};
ghost use Rattle.cdxj_objects.specs.FoundViews.{value_view, found_view};
ghost use Rattle.cdxj_objects.specs.MemberValues.{value_text};
ghost use Rattle.cdxj_objects.specs.ObjectMembers.{map_members};
ghost use Rattle.cdxj_objects.specs.Spelling.{IsSpelled, IsWritten};
ghost use Rattle.cdxj_objects.specs.Texts.{or_missing};

use crate::found_members::FoundMembers;
use crate::member_value::MemberValue;
use crate::members::{AFTER, BEFORE, Members};
use crate::plain::texts_in;
use crate::span::Span;
use itoa::Buffer;
use std::alloc::{AllocError, Global};

/// Returns the text of a member, which is empty if the member is neither a text nor a number.
#[tactic(auto, using(crate::proofs::SpellingLemmas::text_stands, std::proofs::lemmas::Fmt::decimal_nonempty))]
fn member_text<'a>(member: Option<MemberValue<'a>>, digits: &'a mut Buffer) -> &'a str
    ensures text { result.now ≡ raw_text (option_map value_view member.entry) }
    ensures value { or_missing result.now ≡ value_text (option_map value_view member.entry) }
{
    match member {
        Some(MemberValue::Text(text)) => text,
        Some(MemberValue::Number(number)) => digits.format(number),
        _ => "",
    }
}

/// Appends a front and the text of a member to a text, and returns the new length.
fn push_member(
    text: &mut String,
    front: &str,
    member: Option<MemberValue<'_>>,
) -> Result<usize, AllocError>
    ensures bytes { IfOk result (λ _. string_bytes text.new
        ≡ string_bytes text.old ++ (front.now ++ raw_text (option_map value_view member.entry))) }
    ensures end { IfOk result (λ end. end ≡ length (string_bytes text.new)) }
    ensures value { or_missing (raw_text (option_map value_view member.entry))
        ≡ value_text (option_map value_view member.entry) }
{
    let mut digits = Buffer::new();
    let value = member_text(member, &mut digits);
    text.push_str(front)?;
    text.push_str(value)?;
    Ok(text.len())
}

/// Appends a plain object with the texts of these members, and returns where their fronts stand.
fn push_members(
    text: &mut String,
    members: Members<Option<MemberValue<'_>>>,
) -> Result<Members<usize>, AllocError>
    ensures written { IfOk result (λ at. IsWritten (string_bytes text.old) (string_bytes text.new)
        (map_members (λ member. raw_text (option_map value_view member)) members.entry) at) }
    ensures values { IfOk result (λ _.
        map_members (λ member. or_missing (raw_text (option_map value_view member))) members.entry
        ≡ map_members (λ member. value_text (option_map value_view member)) members.entry) }
{
    let before = BEFORE;
    let url = text.len();
    let mime = push_member(text, before.url, members.url)?;
    let status = push_member(text, before.mime, members.mime)?;
    let digest = push_member(text, before.status, members.status)?;
    let length = push_member(text, before.digest, members.digest)?;
    let offset = push_member(text, before.length, members.length)?;
    let filename = push_member(text, before.offset, members.offset)?;
    push_member(text, before.filename, members.filename)?;
    text.push_str(AFTER)?;
    Ok(Members {
        url,
        mime,
        status,
        digest,
        length,
        offset,
        filename,
    })
}

/// Returns the line followed by a plain object with the texts of its members, and where these texts
/// stand.
pub fn spelled<'a>(
    alloc: Global,
    line: &str,
    found: FoundMembers<'a>,
    number: u64,
    name: &'a str,
) -> Result<(String, Members<Span>), AllocError>
    ensures { IfOk result (λ p. IsSpelled line.now (found_view found.entry) number name.now
        (string_bytes p.0) p.1) }
{
    let members = Members {
        offset: Some(MemberValue::Number(number)),
        filename: Some(MemberValue::Text(name)),
        ..found.members
    };
    let mut text = String::with_capacity(alloc, line.len().saturating_mul(2))?;
    text.push_str(line)?;
    let fronts = push_members(&mut text, members)?;
    let texts = texts_in(text.as_str(), &fronts);
    Ok((text, texts))
}
