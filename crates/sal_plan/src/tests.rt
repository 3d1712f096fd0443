use super::*;
use std::alloc::Global;
use std::test::Fail;

/// The rule that a text breaks, if it breaks one.
fn broken(alloc: Global, text: &[u8]) -> Option<u8> {
    match read_plan(alloc, text) {
        Ok(_) => None,
        Err(PlanFault::Refused(rule)) => Some(rule),
        Err(PlanFault::Memory) => Some(u8::MAX),
    }
}

const PLANS: [(&str, Option<u8>); 48] = [
    ("theatres = ", Some(0)),
    ("theatres = [\"rmsp://h/\"]\ntheatres = []", Some(0)),
    ("theatres = [\"rmsp://h/\"", Some(0)),
    ("", Some(1)),
    ("# theatres", Some(1)),
    ("names = []", Some(1)),
    ("theatres = \"rmsp://h/\"", Some(1)),
    ("theatres = [1]", Some(1)),
    ("theatres = [\"rmsp://h/\", 1]", Some(1)),
    ("theatres = [[\"rmsp://h/\"]]", Some(1)),
    ("theatres.a = [\"rmsp://h/\"]", Some(1)),
    ("theatres = []", Some(2)),
    (
        "theatres = [\"rmsp://a\", \"rmsp://b\", \"rmsp://c\", \"rmsp://d\", \"rmsp://e\", \"rmsp://f\", \"rmsp://g\", \"rmsp://h\", \"rmsp://i\"]",
        Some(2),
    ),
    (
        "theatres = [\"rmsp://a\", \"rmsp://b\", \"rmsp://c\", \"rmsp://d\", \"rmsp://e\", \"rmsp://f\", \"rmsp://g\", \"rmsp://h\"]",
        None,
    ),
    ("theatres = []\nnames = 1\nx = 1", Some(2)),
    ("theatres = [\"uan://h/a\"]", Some(3)),
    ("theatres = [\"rmsp://h/\", \"\"]", Some(3)),
    ("theatres = [\"rmsp://h:0/\"]", Some(3)),
    ("theatres = [\"rmsp://h:65536/\"]", Some(3)),
    ("theatres = [\"x\"]\nnames = 1\nwords = 1", Some(3)),
    ("theatres = [\"rmsp://h/\"]", None),
    ("theatres = [\"RMSP://H:4041/path\"]", None),
    ("theatres = [\"rmsp://h/\"]\nnames = \"a\"", Some(4)),
    ("theatres = [\"rmsp://h/\"]\nnames = [true]", Some(4)),
    ("theatres = [\"rmsp://h/\"]\nwords = 1\n[names]", Some(4)),
    ("theatres = [\"rmsp://h/\"]\nnames = []", None),
    (
        "theatres = [\"rmsp://h/\"]\nnames = [\"a:1\", \"b\", \"c\", \"d\"]",
        None,
    ),
    (
        "theatres = [\"rmsp://h/\"]\nnames = [\"a\", \"a\", \"c\", \"d\", \"/\"]",
        Some(5),
    ),
    ("theatres = [\"rmsp://h/\"]\nnames = [\"\"]", Some(6)),
    ("theatres = [\"rmsp://h/\"]\nnames = [\"a:\"]", Some(6)),
    ("theatres = [\"rmsp://h/\"]\nnames = [\"a:03\"]", Some(6)),
    ("theatres = [\"rmsp://h/\"]\nnames = [\"a/b\"]", Some(6)),
    ("theatres = [\"rmsp://h/\"]\nnames = [\"a/\"]", Some(6)),
    ("theatres = [\"rmsp://h/\"]\nnames = [\"a:1/\"]", Some(6)),
    ("theatres = [\"rmsp://h/\"]\nnames = [\"uan://a\"]", Some(6)),
    ("theatres = [\"rmsp://h/\"]\nnames = [\"a b\"]", Some(6)),
    (
        "theatres = [\"rmsp://h/\", \"rmsp://h/\"]\nnames = [\"a:70000\"]\nx = 1",
        Some(6),
    ),
    (
        "theatres = [\"rmsp://h/\"]\nnames = [\"a\", \"A:3030\"]",
        Some(7),
    ),
    ("theatres = [\"rmsp://h/\", \"rmsp://H:4040/x\"]", Some(7)),
    (
        "theatres = [\"rmsp://h/\"]\nnames = [\"h:4040\"]\nwords = 1",
        Some(7),
    ),
    ("theatres = [\"rmsp://h/\"]\nnames = [\"h\"]", None),
    ("theatres = [\"rmsp://h/\"]\nwords = \"a\"", Some(8)),
    ("theatres = [\"rmsp://h/\"]\nwords = [1]", Some(8)),
    ("theatres = [\"rmsp://h/\"]\n[words]", Some(8)),
    ("theatres = [\"rmsp://h/\"]\nport = 1", Some(8)),
    ("theatres = [\"rmsp://h/\"]\nWords = []", Some(8)),
    ("theatres = [\"rmsp://h/\"]\nwords = []", None),
    ("words = [\"\", \"a\"]\ntheatres = [\"rmsp://h/\"]", None),
];

#[test]
fn names_the_lowest_rule(rt: HostRuntime) {
    let alloc = rt.alloc();
    for (text, rule) in PLANS.iter() {
        assert!(rt; broken(alloc, text.as_bytes()) == *rule, "{text}");
    }
    assert_eq!(rt; broken(alloc, b"theatres = [\"\xff\"]"), Some(0));
}

#[test]
fn reads_what_is_written(rt: HostRuntime) -> Result<(), Fail> {
    let alloc = rt.alloc();
    let text = "theatres = [\"rmsp://H:4041/x\"]\nnames = [\"Localhost\"]\nwords = [\"a\\n\"]";
    let plan = read_plan(alloc, text.as_bytes())?;
    assert_eq!(rt; plan.theatres.len(), 1);
    assert_eq!(rt;
        plan.theatres.as_slice()[0].text(alloc)?.as_str(),
        "rmsp://h:4041/"
    );
    assert_eq!(rt; plan.names.len(), 1);
    assert_eq!(rt; plan.names.as_slice()[0].host.as_str(), "localhost");
    assert_eq!(rt; plan.names.as_slice()[0].port, 3030);
    assert_eq!(rt; plan.words.len(), 1);
    let longest = vec![in alloc; b' '; LONGEST_PLAN]?;
    assert_eq!(rt; broken(alloc, longest.as_slice()), Some(1));
    let longer = vec![in alloc; b' '; LONGEST_PLAN + 1]?;
    assert_eq!(rt; broken(alloc, longer.as_slice()), Some(0));
    Ok(())
}
