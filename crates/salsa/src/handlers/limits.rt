//! Rows of limits: each trap that counts, and each value that is too large, at its limit. Of more than eight
//! things the number is told, and the last one.

/// How much a handler makes, and how many numbers are left.
pub const COUNTS: &str = r#"
void m(B b, int n) { for (int i = 0; i < n; i = i + 1) b<-add(i); }
? m anon:0:7 1024 serial=0
= answer null
= 1024 messages
= message 1023 to anon:0:7 1.2 (1023)
= next 1024 6
? m anon:0:7 1025 serial=0
= trap too-many-messages

void m(B b, int n) { join { for (int i = 0; i < n; i = i + 1) b<-add(i); }; }
? m anon:0:7 1024 serial=0
= answer null
= 1024 messages
= message 1024 to anon:0:7 1.2 (1023) reply slot anon:0:5 0 1023
= join 0 slots 1024
= next 1025 6
? m anon:0:7 1025 serial=0
= trap too-many-messages

void m(B b, int n) { for (int i = 0; i < n; i = i + 1) join { if (false) b<-go(); }; }
? m anon:0:7 1024 serial=0
= answer null
= 1024 joins
= join 1023 slots 0 void
= next 1024 6
? m anon:0:7 1025 serial=0
= trap too-many-messages

void m(B b, int n) { for (int i = 0; i < n; i = i + 1) { b<-go(); join { if (false) b<-go(); }; B c = new B(i); } }
? m anon:0:7 1024 serial=0
= answer null
= 1024 messages
= message 2046 to anon:0:7 1.0 ()
= 1024 joins
= join 2047 slots 0 void
= 1024 actors
= actor anon:0:1029 1 (1023 "b")
= next 2048 1030

void m(B b, B c, int n, int d) { for (int i = 0; i < n; i = i + 1) b<-go(); c<-go():delay(d); }
? m anon:0:7 anon:0:7 1024 0
= trap too-many-messages
? m anon:0:7 anon:0:7 1024 -1
= trap bad-delay
? m anon:0:7 null 1024 0
= trap null-target
? m anon:0:7 null 1024 -1
= trap null-target

void m(B b, int n, int z) { for (int i = 0; i < n; i = i + 1) join { if (false) b<-go(); }; join { b<-add(1 / z); }; }
? m anon:0:7 1023 0
= trap zero-divisor
? m anon:0:7 1024 0
= trap too-many-messages

void m(B b, int n, int z) { for (int i = 0; i < n; i = i + 1) b<-go(); join { b<-add(1 / z); }; }
? m anon:0:7 1024 0
= trap zero-divisor
? m anon:0:7 1024 1
= trap too-many-messages
? m anon:0:7 1023 1 serial=0
= answer null
= 1024 messages
= message 1024 to anon:0:7 1.2 (1) reply slot anon:0:5 1023 0
= join 1023 slots 1
= next 1025 6

void m(int n, int k) { for (int i = 0; i < n; i = i + 1) { B b = new B(i); } for (int i = 0; i < k; i = i + 1) { B b = new B(i) at ("uan://h/a"); } }
? m 512 512 serial=0
= answer null
= 512 actors
= actor anon:0:517 1 (511 "b")
= 512 creations
= creation 511 uan://h:3030/a 1 (511 "b")
= next 512 518
? m 512 513
= trap too-many-messages
? m 1025 0
= trap too-many-messages
? m 0 1025
= trap too-many-messages
? m 0 1024 serial=0
= answer null
= 1024 creations
= creation 1023 uan://h:3030/a 1 (1023 "b")
= next 1024 6

B m(int n, int z, String u) { for (int i = 0; i < n; i = i + 1) { B b = new B(i); } return new B(1 / z) at (u); }
? m 1024 0 'x
= trap zero-divisor
? m 1024 1 'x
= trap too-many-messages
? m 1023 1 'x
= trap bad-name

behavior A { Q m(int n) { for (int i = 0; i < n; i = i + 1) { A a = new A(); } return new Q(); } }
behavior Q { int a = 1 / 0; }
? m 1023
= trap zero-divisor
? m 1024
= trap too-many-messages

void m(B b) { b<-go(); }
? m anon:0:7 serial=18446744073709547520
= answer null
= message 18446744073709547520 to anon:0:7 1.0 ()
= next 18446744073709547521 6
? m anon:0:7 serial=18446744073709547521
= trap too-many-messages

int m(int z) { return 1 / z; }
? m 0 serial=18446744073709547521
= trap too-many-messages
? m 1 serial=18446744073709551615
= trap too-many-messages
? m 1 serial=18446744073709547520
= answer 1

void m() { }
? migrate 'rmsp://h/ serial=18446744073709547520
= answer null
? migrate 'rmsp://h/ serial=18446744073709547521
= trap too-many-messages
? migrate 'x serial=18446744073709547521
= trap too-many-messages
"#;

/// How many loop turns a handler begins.
pub const TURNS: &str = r#"
int m(int a, int b) { for (int i = 0; i < a; i = i + 1) ; int j = 0; while (j < b) j = j + 1; return j; }
? m 99990 10
= answer 10
? m 99990 11
= trap too-many-turns

int m(int a, int b) { int s = 0; for (int i = 0; i < a; i = i + 1) for (int j = 0; j < b; j = j + 1) s = s + 1; return s; }
? m 10 10000
= trap too-many-turns

int m(int k) { int i = 0; while (1 / (k - i) > -1) i = i + 1; return i; }
? m 100000
= trap zero-divisor
"#;

/// How large values are.
pub const VALUES: &str = r#"
boolean m(int k, String t) { String s = "x"; for (int i = 0; i < k; i = i + 1) s = s + s; return s + t == s; }
? m 12 '
= answer true
? m 12 'y
= trap too-large
? m 13 '
= trap too-large
? m 11 'y
= answer false

boolean m(int k) { String s = "ä"; for (int i = 0; i < k; i = i + 1) s = s + s; return s == ""; }
? m 11
= answer false
? m 12
= trap too-large

boolean m(int k) { String s = "x"; for (int i = 0; i < 12; i = i + 1) s = s + s; return k + s == ""; }
? m 1
= trap too-large

int m(int n) { int[] a = new int[n]; return a.length; }
? m 4096
= answer 4096
? m 4097
= trap too-large
? m 2147483647
= trap too-large

int m(int n) { int[][] a = new int[n][]; return a.length; }
? m 4096
= answer 4096
? m 4097
= trap too-large

int m(int n) { String t = ""; String s = "y"; for (; n > 0; n = n / 2) { if (n % 2 == 1) t = t + s; s = s + s; } String[] a = new String[16]; for (int i = 0; i < 15; i = i + 1) a[i] = s; a[15] = t; return a.length; }
? m 4045
= answer 16
? m 4046
= trap too-large

int m(int n) { String t = ""; String s = "y"; for (; n > 0; n = n / 2) { if (n % 2 == 1) t = t + s; s = s + s; } String[] a = new String[] { s, s, s, s, s, s, s, s, s, s, s, s, s, s, s, t }; return a.length; }
? m 4045
= answer 16
? m 4046
= trap too-large

int m(int k) { int[][] a = new int[4][]; for (int i = 0; i < 3; i = i + 1) a[i] = new int[4096]; a[3] = new int[k]; return k; }
? m 816
= answer 816
? m 817
= trap too-large

int[][] a = new int[4][];
int m(int k) { for (int i = 0; i < k; i = i + 1) a[i] = new int[4096]; return k; }
? m 4 / []
= trap index-out-of-range

int m(int k, int i) { int[][] a = new int[4][]; for (int j = 0; j < 3; j = j + 1) a[j] = new int[4096]; a[i] = new int[k]; return k; }
? m 4096 3
= trap too-large
? m 4096 4
= trap index-out-of-range
? m 4097 4
= trap too-large
"#;
