/// Names and their canonical texts.
pub const NAMES: [(&str, &str); 7] = [
    ("UAN://Ex.Org/a/B", "uan://ex.org:3030/a/B"),
    ("uan://h/a", "uan://h:3030/a"),
    ("uan://h:1/a", "uan://h:1/a"),
    ("uan://h:10/a", "uan://h:10/a"),
    ("uan://H-1.x:65535/~", "uan://h-1.x:65535/~"),
    ("uAn://h:8080//a:b?c=%20", "uan://h:8080//a:b?c=%20"),
    ("uan://h:999/_@+.-", "uan://h:999/_@+.-"),
];

/// Locators and their canonical texts.
pub const LOCATORS: [(&str, &str); 4] = [
    ("rmsp://h", "rmsp://h:4040/"),
    ("RMSP://Ex.Org:4041", "rmsp://ex.org:4041/"),
    ("rmsp://h/", "rmsp://h:4040/"),
    ("rmsp://h:1/a/b", "rmsp://h:1/"),
];

pub const BAD_SCHEMES: [&str; 6] = [
    "http://h/a",
    "",
    "uan:/",
    "uan:/h/a",
    "rmsp://h/a",
    " uan://h/a",
];

pub const BAD_HOSTS: [&str; 5] = [
    "uan:///a",
    "uan://",
    "uan://:1/a",
    "uan://h_/a",
    "uan://h /:/",
];

pub const BAD_PORTS: [&str; 9] = [
    "uan://h:0/a",
    "uan://h:01/a",
    "uan://h:65536/a",
    "uan://h:/a",
    "uan://h:+1/a",
    "uan://h:1:2/a",
    "uan://h: 1/a",
    "uan://h:99999999999999999999/a",
    "uan://h:x",
];

pub const BAD_PATHS: [&str; 5] = [
    "uan://h/",
    "uan://h",
    "uan://h:1",
    "uan://h:1/a b",
    "uan://h/#",
];

pub const BAD_LOCATOR_SCHEMES: [&str; 2] = ["uan://h/a", "rmsp:/h"];

pub const BAD_LOCATOR_PATHS: [&str; 2] = ["rmsp://h/#", "rmsp://h:1/a b"];
