ghost use Rattle.std.specs.Prelude.{◌<◌, ◌^◌, length};

use crate::{MethodPattern, PatternFault, TypePattern};
use jtypes::{JPrim, JType, MethodSig, Name, SharedList};
use rw_base::{Mem, Shared};
use std::alloc::Global;

// Where a text is read, and where it is refused.
fn place<T: Drop>(read: Result<T, PatternFault>) -> Option<u32> {
    match read {
        Ok(_) => None,
        Err(PatternFault::At(at)) => Some(at),
        Err(PatternFault::NoMemory) => Some(1000),
    }
}

fn place_of_method(alloc: Global, text: &[u8]) -> Option<u32>
    requires { length text.now < 2 ^ 32 }
{
    place(MethodPattern::read(alloc, text))
}

fn place_of_type(alloc: Global, text: &[u8]) -> Option<u32>
    requires { length text.now < 2 ^ 32 }
{
    place(TypePattern::read(alloc, text))
}

#[test]
fn methods_are_read_or_refused(rt: HostRuntime) {
    for (text, want) in [
        ("a.B f(", Some(6)),
        ("A *1()", Some(3)),
        ("A **()", Some(4)),
        ("A f( int )", Some(4)),
        ("A f( )", Some(4)),
        ("A f(int )", Some(8)),
        (" A f()", Some(0)),
        ("A f() ", Some(5)),
        ("A class()", None),
        ("A <constructor>(int)", None),
        ("A <constr()", Some(9)),
        ("a...b f()", Some(3)),
        ("a f(a...b)", Some(8)),
        ("a f(a..., b)", Some(8)),
        ("a f(a[]...)", None),
        ("a f(a[].)", Some(8)),
        ("a f(.., b ,  int[] , *)", None),
        ("a f(.)", Some(5)),
        ("", Some(0)),
        ("a", Some(1)),
        ("*..*  *(..)", None),
        ("\u{e9}.A f()", None),
        ("\u{d7}", Some(1)),
    ] {
        let bytes = text.as_bytes();
        assert_eq!(rt; place_of_method(rt.alloc(), bytes), want, "at {text}");
    }
    assert_eq!(rt; place_of_method(rt.alloc(), b"a\xc3\xff"), Some(2));
    // U+1FBF0 is a digit that goes on with a word, and no letter of U+1F600 to U+1F63F does.
    assert_eq!(rt; place_of_method(rt.alloc(), b"a\xf0\x9f\x98\x80"), Some(3));
    assert_eq!(rt; place_of_method(rt.alloc(), b"a\xff"), Some(1));
}

#[test]
fn types_are_read_or_refused(rt: HostRuntime) {
    for (text, want) in [
        ("com.acme..*Service", None),
        ("int", None),
        ("a.", Some(2)),
        ("a...b", Some(3)),
        ("a[]", Some(1)),
        ("a b", Some(1)),
        ("1a", Some(0)),
    ] {
        let bytes = text.as_bytes();
        assert_eq!(rt; place_of_type(rt.alloc(), bytes), want, "at {text}");
    }
}

// `find(int, String...)` of `com.acme.Shop`.
fn find(alloc: Global) -> Mem<MethodSig> {
    let element = JType::Class(Name::new(alloc, b"java.lang.String")?);
    let mut params = Vec::new(alloc);
    params.push(JType::Prim(JPrim::Int))?;
    params.push(JType::Array(Shared::new(alloc, element)?))?;
    Ok(MethodSig {
        owner: Name::new(alloc, b"com.acme.Shop")?,
        name: Name::new(alloc, b"find")?,
        params: SharedList::new(alloc, params)?,
        result: JType::Void,
        varargs: true,
        is_static: false,
        is_private: false,
    })
}

fn finds(alloc: Global, text: &[u8]) -> Option<bool>
    requires { length text.now < 2 ^ 32 }
{
    let pattern = MethodPattern::read(alloc, text).ok()?;
    Some(pattern.matches(&find(alloc).ok()?))
}

#[test]
fn what_is_read_matches(rt: HostRuntime) {
    for (text, want) in [
        ("com.acme.Shop find(int, String...)", true),
        ("com..* f*(int, ..)", true),
        ("com.*.Shop  *(*, java.lang.String[])", true),
        ("*..Shop find(..)", true),
        ("com.acme.Shop find(int)", false),
        ("com.acme.Shop find(int, String)", false),
        ("com.acme.Shop find(*[], ..)", false),
        ("Shop find(..)", false),
    ] {
        let bytes = text.as_bytes();
        assert_eq!(rt; finds(rt.alloc(), bytes), Some(want), "at {text}");
    }
}
