//! Which query texts are refused, and why.
use fixtures::padded;
use query_text::{Query, QueryFault, is_parameter};
use std::alloc::Global;
use std::test::Fail;

/// Returns the name of the fault for which a text is refused, or `accepted`. A failed allocation is an error of the
/// test.
fn verdict(alloc: Global, text: &str) -> Result<&'static str, QueryFault> {
    match Query::read(alloc, text) {
        Ok(_query) => Ok("accepted"),
        Err(QueryFault::Memory) => Err(QueryFault::Memory),
        Err(fault) => Ok(fault.name()),
    }
}

/// Returns the first row of a table that has another verdict on its text.
fn other_verdict(alloc: Global, table: &'static str) -> Result<Option<&'static str>, QueryFault> {
    for row in table.split('\n') {
        let (wanted, text) = row.split_once(' ').unwrap_or((row, ""));
        if verdict(alloc, text)? != wanted {
            return Ok(Some(row));
        }
    }
    Ok(None)
}

/// Texts, each in a row behind the name of its fault.
const VALUES: &str = "\
NotLiteral filter=statuscode:[23]..
BadLimit limit=0
BadLimit limit=-5
BadMatch url=a&matchType=near
BadMatch matchType=Exact
BadStamp from=2016-
BadStamp from=201601010000000
BadStamp from=+2016
BadStamp to=2016%2D01
BadStamp to=%FF
BadStamp to=\u{ff12}016
BadFilter is=colour:red
BadFilter is=offset
BadFilter is=:x
BadFilter is=!offset:1
BadFilter has=+offset:1
BadFilter isnot=Offset:1
BadFilter filter=offset
BadFilter filter=!offset
BadFilter filter=!!offset:1
BadFilter filter=!:1
BadFilter filter=colour:[
BadFilter filter=[:x
BadLimit limit=+1
BadLimit limit=1+
BadLimit limit=%2B1
BadLimit limit=1000001
BadLimit limit=9999999
BadLimit limit=00000001
BadLimit limit=0000000
BadLimit limit=1e3
BadLimit limit=18446744073709551617
BadLimit limit=\u{661}
BadFlag showResumeKey=1
BadFlag showResumeKey=True
BadField fl=urlkey,
BadField fl=,
BadField fl=urlkey,,offset
BadField fl=URLKEY
BadField fl=urlkey;offset
BadField fl=urlkey+
BadOutput output=xml
BadOutput output=JSON
BadOutput output=+text
BadCollapse collapse=timestamp:0
BadCollapse collapse=timestamp:00
BadCollapse collapse=timestamp:15
BadCollapse collapse=timestamp:008
BadCollapse collapse=timestamp:
BadCollapse collapse=timestamp:+8
BadCollapse collapse=timestamp:8,
BadCollapse collapse=timestamp8
BadCollapse collapse=urlkey:5
BadCollapse collapse=Urlkey
BadCollapse collapse=digest
BadCollapse collapse=original
BadCollapse collapse=length:2";

const EMPTY_VALUES: &str = "\
BadUrl url=
BadUrl url
BadMatch matchType=
BadMatch matchType
BadStamp from=
BadStamp from
BadStamp to=
BadStamp to
BadFilter filter=
BadFilter filter
BadFilter is=
BadFilter is
BadFilter isnot=
BadFilter isnot
BadFilter has=
BadFilter has
BadFilter hasnot=
BadFilter hasnot
BadLimit limit=
BadLimit limit
BadResume resumeKey=
BadResume resumeKey
BadFlag showResumeKey=
BadFlag showResumeKey
BadField fl=
BadField fl
BadOutput output=
BadOutput output
BadCollapse collapse=
BadCollapse collapse";

const UNKNOWN: &str = "\
Unknown =
Unknown =a
Unknown URL=a
Unknown url+=a
Unknown +url=a
Unknown %FF=a
Unknown matchtype=exact
Unknown is%00=offset:1
Unknown Collapse=urlkey
Unknown page=0
Unknown pageSize=1
Unknown showNumPages=true
Unknown gzip=false
Unknown resolveRevisits=true
Unknown showDupeCount=true
Unknown showSkipCount=true
Unknown lastSkipTimestamp=true
Unknown fastLatest=true
Unknown offset=1
Unknown sort=reverse
Unknown closest=2016";

const REPEATED: &str = "\
RepeatedParameter url=a&url=b
RepeatedParameter url=&url=
RepeatedParameter u%72l=a&url=a
RepeatedParameter key=a&key=a
RepeatedParameter key=&key=
RepeatedParameter matchType=exact&matchType=exact
RepeatedParameter from=1&from=1
RepeatedParameter to=1&to=2
RepeatedParameter limit=1&limit=1
RepeatedParameter limit=1&limit=0
RepeatedParameter resumeKey=k+20160101000000+a+5&resumeKey=x
RepeatedParameter showResumeKey=true&showResumeKey=false
RepeatedParameter fl=offset&fl=offset
RepeatedParameter output=text&output=xml
RepeatedParameter collapse=urlkey&collapse=urlkey
RepeatedParameter collapse=urlkey&collapse=digest";

const TWO_FAULTS: &str = "\
Unknown x=1&limit=0
BadLimit limit=0&x=1
BadLimit limit=0&from=x
BadStamp from=x&limit=0
BadMatch matchType=near&output=xml
BadOutput output=xml&matchType=near
BadField fl=colour&is=colour:red
BadFilter is=colour:red&fl=colour
BadResume resumeKey=x&showResumeKey=1
BadFlag showResumeKey=1&resumeKey=x
NotLiteral filter=offset:[&x=1
Unknown x=1&filter=offset:[
RepeatedParameter url=a&url=b&limit=0
BadLimit limit=0&url=a&url=b
RepeatedParameter to=1&to=2&x=1
Unknown x=1&to=1&to=2
BadLimit limit=0&limit=0
BadCollapse collapse=digest&limit=0
BadLimit limit=0&collapse=digest
BadCollapse collapse=digest&x=1";

const WITHOUT_A_TARGET: &str = "\
NoUrl
NoUrl &
NoUrl &&&
NoUrl limit=1
NoUrl matchType=domain
UrlAndKey url=a&key=b
UrlAndKey key=b&url=a
UrlAndKey url=&key=
UrlAndKey url=urn:x:1&key=b
BadLimit url=a&key=b&limit=0
BadLimit url=urn:x:1&limit=0
BadUrl url=urn:x:1
BadUrl url=*
BadUrl url=*.
BadUrl url=http:a
BadUrl url=http://
BadUrl url=http:///
BadUrl url=http://256.1.1.1/
BadUrl url=a:65536
BadUrl url=exa+mple.com
BadUrl url=%20example.com
BadUrl url=[::1
BadUrl url=dns:a&matchType=host
BadUrl url=ftp://a/&matchType=host
BadUrl url=ftp://a/&matchType=domain";

/// A resume key is a key, a stamp, a file name and an offset, and is decoded once.
const NO_PLACES: &str = "\
BadResume resumeKey=x
BadResume resumeKey=k+20160101000000+a
BadResume resumeKey=k+20160101000000++5
BadResume resumeKey=k+2016010100000+a+5
BadResume resumeKey=k+201601010000000+a+5
BadResume resumeKey=k+2016010100000x+a+5
BadResume resumeKey=+20160101000000+a+5
BadResume resumeKey=k%00+20160101000000+a+5
BadResume resumeKey=k+20160101000000+a+x
BadResume resumeKey=k+20160101000000+a+9223372036854775808
BadResume resumeKey=k+20160101000000+a+00000000000000000005
BadResume resumeKey=k%2B20160101000000%2Ba%2B5
BadResume resumeKey=k%252B20160101000000%252Ba%252B5";

/// The characters that patterns use, each form-encoded where a form needs it.
const PATTERNS: &[&str] = &[
    "\\", "^", "$", ".", "|", "?", "*", "%2B", "(", ")", "[", "]", "{", "}",
];

/// Texts that are accepted, though they look like others that are refused.
const ACCEPTED: &str = "\
accepted filter=!statuscode:200&url=a
accepted url=a&is=offset:&is=offset:
accepted url=a&isnot=offset:1&isnot=offset:1
accepted url=a&has=urlkey:a.b*&has=urlkey:[
accepted url=a&hasnot=digest::&hasnot=digest:::
accepted url=a&filter=original:a+b&filter=original:a:b
accepted url=a&filter=original:
accepted url=a&from=2&to=1
accepted url=a&from=%32016
accepted url=a&to=99999999999999
accepted url=a&limit=1000000
accepted url=a&l%69mit=%31
accepted url=a&fl=urlkey,timestamp,original,mimetype,statuscode,digest,length,offset,filename
accepted collapse=timestamp:08&url=a
accepted url=a&collapse=timestamp:14
accepted url=a&collapse=timestamp:1
accepted url=a&collapse=time%73tamp%3A9";

const REFUSED: &[&str] = &[VALUES, EMPTY_VALUES, TWO_FAULTS, WITHOUT_A_TARGET];

#[test]
fn texts_are_refused_for_their_first_fault(rt: HostRuntime) -> Result<(), QueryFault> {
    for table in REFUSED {
        let other = other_verdict(rt.alloc(), table)?;
        let row = other.unwrap_or("");
        assert!(rt; other.is_none(), "{row}");
    }
    Ok(())
}

const ALIKE: &[&str] = &[UNKNOWN, REPEATED, NO_PLACES, ACCEPTED];

#[test]
fn parameters_are_unknown_repeated_no_places_or_good(rt: HostRuntime) -> Result<(), QueryFault> {
    for table in ALIKE {
        let other = other_verdict(rt.alloc(), table)?;
        let row = other.unwrap_or("");
        assert!(rt; other.is_none(), "{row}");
    }
    Ok(())
}

/// Returns the pattern between two texts.
fn around(alloc: Global, front: &str, pattern: &str, end: &str) -> Result<String, QueryFault> {
    let mut text = String::from_str(alloc, front)?;
    text.push_str(pattern)?;
    text.push_str(end)?;
    Ok(text)
}

/// Returns `true` if the pattern is refused in `filter`, and accepted in `is`.
fn is_no_literal(alloc: Global, pattern: &str) -> Result<bool, QueryFault> {
    let filter = around(alloc, "url=a&filter=original:x", pattern, "y")?;
    let not = around(alloc, "url=a&filter=!original:", pattern, "")?;
    let is = around(alloc, "url=a&is=original:x", pattern, "y")?;
    Ok(
        verdict(alloc, filter.as_str())? == "NotLiteral"
            && verdict(alloc, not.as_str())? == "NotLiteral"
            && verdict(alloc, is.as_str())? == "accepted",
    )
}

#[test]
fn patterns_are_refused_in_filter_alone(rt: HostRuntime) -> Result<(), QueryFault> {
    for pattern in PATTERNS {
        assert!(rt; is_no_literal(rt.alloc(), pattern)?, "{pattern}");
    }
    Ok(())
}

/// Texts, how many letters follow each, and the verdict on it.
const LENGTHS: &[(&str, usize, &str)] = &[
    ("", 65_536, "Unknown"),
    ("", 65_537, "QueryTooLong"),
    ("limit=0&", 65_529, "QueryTooLong"),
    ("key=", 65_532, "accepted"),
    ("key=", 65_533, "QueryTooLong"),
];

#[test]
fn texts_have_at_most_65536_bytes(rt: HostRuntime) -> Result<(), Fail> {
    for (text, letters, wanted) in LENGTHS {
        let length = text.len().saturating_add(*letters);
        let long = padded(rt.alloc(), text.as_bytes(), b'a', b"", length)?;
        assert!(rt;
            verdict(rt.alloc(), str::from_utf8(&long)?)? == *wanted,
            "{letters}"
        );
    }
    Ok(())
}

const NAMES: &[(QueryFault, &str)] = &[
    (QueryFault::Memory, "Memory"),
    (QueryFault::RepeatedParameter, "RepeatedParameter"),
    (QueryFault::NotLiteral, "NotLiteral"),
    (QueryFault::UrlAndKey, "UrlAndKey"),
    (QueryFault::QueryTooLong, "QueryTooLong"),
    (QueryFault::BadCollapse, "BadCollapse"),
];

#[test]
fn refusals_have_names(rt: HostRuntime) {
    for (fault, name) in NAMES {
        assert!(rt; fault.name() == *name);
    }
}

#[test]
fn names_of_parameters_are_known_with_their_case(rt: HostRuntime) {
    assert!(rt; is_parameter("collapse"));
    assert!(rt; is_parameter("hasnot"));
    assert!(rt; !is_parameter("Collapse"));
    assert!(rt; !is_parameter("page"));
    assert!(rt; !is_parameter(""));
}
