//! The targets of query texts.
use query_text::{MatchKind, Query, QueryFault};
use std::alloc::Global;

/// Texts, each in a row behind its target.
const EXACT: &str = "\
com,example)/ url=example.com
com,example)/ &&url=example.com&&
com,example)/ u%72l=example.com
com,example)/a url=HTTP://Example.com/A
com,example)/?a=b url=http%3A%2F%2FExample.com%2F%3Fa%3Db
com,example)/?a=b=c url=example.com/?a=b=c
com,example)/a%20b url=example.com/a+b
com,example)/%ef%bf%bd url=example.com/%FF
com,example)/%41 url=example.com/%2541
com,example)/ url=example.com%20
a)/ url=//a
http)/ url=http:80
http:8080)/x url=http:8080/x
com,example)/ url=user:pass@example.com/
com,example)/ url=https://example.com:443/
192.0.2.7)/x url=192.0.2.7/x
[2001:db8::1]:81)/ url=[2001:DB8::1]:81/
example,xn--bcher-kva)/ url=b%C3%BCcher.example
example,xn--bcher-kva)/ url=b\u{fc}cher.example
1http)//a/ url=1http://a/
h_t)//a/ url=h_t://a/
h-t.p+2://a/ url=h-t.p%2B2://A/
ftp://a/ url=ftp://A/
example,a*b)/ url=a*b.example
com,example)/* url=example.com/*&matchType=exact
com,example,*)/ url=*.example.com&matchType=exact
com,example)/ matchType=exact&url=example.com
*.a* key=*.a*
 key=
 key
A b\u{fffd} key=A+b%FF
dns:example.com key=dns:example.com
a=b key=a=b";

const PREFIX: &str = "\
com,example)/ url=example.com/*
com,example)/ url=example.com*
com,example)/a url=example.com/a*
com,example)/a url=example.com/a?*
com,example)/a?b url=example.com/a?b*
exam)/ url=exam*
*)/ url=**
com,example)/* url=example.com/**
ftp://a/ url=ftp://A/*
com,example)/a url=example.com/a&matchType=prefix
com,example,*)/ url=*.example.com&matchType=prefix
 key=&matchType=prefix
com, key=com,&matchType=prefix";

const HOST: &str = "\
com,example url=example.com&matchType=host
com,example url=https://www.Example.com:8080/x&matchType=host
192.0.2.7 url=192.0.2.7&matchType=host
[::1] url=[::1]:81&matchType=host
com,example,* url=*.example.com&matchType=host
com,example key=com,example&matchType=host";

const DOMAIN: &str = "\
com,example url=*.example.com
com,example url=*.www.example.com
com,example url=*.example.com:8080/a
* url=*.*
com url=*.com
com,example url=example.com:8080&matchType=domain
com key=com&matchType=domain
 key=&matchType=domain";

const TARGETS: &[(&str, MatchKind)] = &[
    (EXACT, MatchKind::Exact),
    (PREFIX, MatchKind::Prefix),
    (HOST, MatchKind::Host),
    (DOMAIN, MatchKind::Domain),
];

/// Returns `true` if the query has this target.
fn has_target(
    alloc: Global,
    text: &str,
    target: &str,
    kind: MatchKind,
) -> Result<bool, QueryFault> {
    let query = Query::read(alloc, text)?;
    let found = query.target();
    Ok(found.text() == target && found.kind() == kind)
}

/// Returns the first line of a table whose query has another target or match type.
fn other_target<'a>(
    alloc: Global,
    table: &'a str,
    kind: MatchKind,
) -> Result<Option<&'a str>, QueryFault> {
    for line in table.split('\n') {
        let (target, text) = line.rsplit_once(' ').unwrap_or(("", line));
        if !has_target(alloc, text, target, kind)? {
            return Ok(Some(line));
        }
    }
    Ok(None)
}

#[test]
fn targets_are_those_of_the_url_or_the_key(rt: HostRuntime) -> Result<(), QueryFault> {
    for (table, kind) in TARGETS {
        let other = other_target(rt.alloc(), table, *kind)?;
        let row = other.unwrap_or("");
        assert!(rt; other.is_none(), "{row}");
    }
    Ok(())
}
