//! Rows of messages.

/// Targets, arguments, chains, tokens, properties, and to whom replies are owed. Behaviour 65535 has the
/// handlers 0 `print`, 1 `println` and 65535 `migrate`; behaviour 1 is `B`, with 0 `go`, 1 `give`, 2 `add`,
/// 3 `sum`, 4 `list` and 5 `take`.
pub const TABLE: &str = r#"
void m() { a(); self<-a(); }
void a() { }
? m
= answer null
= message 10 to anon:0:5 0.1 ()
= message 11 to anon:0:5 0.1 ()
= next 12 6

void m(A a) { a<-m(a); a<-m(null); a<-m(self); }
? m anon:0:7
= answer null
= message 10 to anon:0:7 0.0 (anon:0:7)
= message 11 to anon:0:7 0.0 (null)
= message 12 to anon:0:7 0.0 (anon:0:5)
= next 13 6

B b;
void m() { b<-go(); this.b<-add(2); }
? m / anon:0:7
= answer null
= fields anon:0:7
= message 10 to anon:0:7 1.0 ()
= message 11 to anon:0:7 1.2 (2)
= next 12 6
? m / null
= trap null-target

int m(B b) { b<-go(); return 4; }
? m anon:0:7 serial=0
= answer 4
= message 0 to anon:0:7 1.0 ()
= next 1 6

void m(B[] bs, int i) { bs[i]<-go(); }
void n(B b) { m(new B[] { null, b }, 1); }
? n anon:0:7
= answer null
= message 10 to anon:0:5 0.0 ([null anon:0:7] 1)
= next 11 6

void m(int i, int z) { B[] bs = new B[2]; bs[i]<-add(1 / z); }
? m 2 0
= trap index-out-of-range
? m 1 0
= trap zero-divisor
? m 1 1
= trap null-target

void m(B b, int z, int d) { b<-add(1 / z):delay(d); }
? m null 0 -1
= trap zero-divisor
? m null 1 -1
= trap null-target
? m anon:0:7 1 -1
= trap bad-delay

void m(B b, int z) { b<-go():delay(1 / z); }
? m null 0
= trap zero-divisor
? m null 1
= trap null-target
? m anon:0:7 1
= answer null
= message 10 to anon:0:7 1.0 () delay 1
= next 11 6

void m(B b, B c, int z) { b<-go() @ c<-add(1 / z); }
? m null null 0
= trap null-target
? m anon:0:7 null 0
= trap zero-divisor
? m anon:0:7 null 1
= trap null-target

void m(B b) { b<-give() @ b<-add(token) @ standardOutput<-println(token); }
? m anon:0:7
= answer null
= message 10 to anon:0:7 1.1 () reply tok anon:0:5 10
= message 11 to anon:0:7 1.2 (#10) after 10 reply tok anon:0:5 11
= message 12 to output 65535.1 (#11) after 11
= next 13 6

void m(B b) { b<-go() @ b<-go() @ b<-give(); }
? m anon:0:7
= answer null
= message 10 to anon:0:7 1.0 () reply tok anon:0:5 10
= message 11 to anon:0:7 1.0 () after 10 reply tok anon:0:5 11
= message 12 to anon:0:7 1.1 () after 11
= next 13 6

void m(B b) { b<-give() @ k(token, "s" + 1, token); }
void k(int a, String s, int b) { }
? m anon:0:7
= answer null
= message 10 to anon:0:7 1.1 () reply tok anon:0:5 10
= message 11 to anon:0:5 0.1 (#10 "s1" #10) after 10
= next 12 6

void m(B b) { token x = b<-give(); standardOutput<-print(x); b<-add(x); }
? m anon:0:7
= answer null
= message 10 to anon:0:7 1.1 () reply tok anon:0:5 10
= message 11 to output 65535.0 (#10)
= message 12 to anon:0:7 1.2 (#10)
= next 13 6

void m(B b) { token x = b<-give() @ b<-add(token); b<-add(x) @ b<-add(token); }
? m anon:0:7
= answer null
= message 10 to anon:0:7 1.1 () reply tok anon:0:5 10
= message 11 to anon:0:7 1.2 (#10) after 10 reply tok anon:0:5 11
= message 12 to anon:0:7 1.2 (#11) reply tok anon:0:5 12
= message 13 to anon:0:7 1.2 (#12) after 12
= next 14 6

void m(B b) { token x = b<-go(); b<-go():waitfor(x):delay(500); b<-go():delay(500):waitfor(x); }
? m anon:0:7
= answer null
= message 10 to anon:0:7 1.0 () reply tok anon:0:5 10
= message 11 to anon:0:7 1.0 () after 10 delay 500
= message 12 to anon:0:7 1.0 () after 10 delay 500
= next 13 6

void m(B b) { token x = b<-give(); token y = b<-go(); b<-add(x):waitfor(y, x, y); b<-go():waitfor(x, y); }
? m anon:0:7
= answer null
= message 10 to anon:0:7 1.1 () reply tok anon:0:5 10
= message 11 to anon:0:7 1.0 () reply tok anon:0:5 11
= message 12 to anon:0:7 1.2 (#10) after 11 10
= message 13 to anon:0:7 1.0 () after 10 11
= next 14 6

void m(B b) { token x = b<-go(); b<-go() @ b<-go():waitfor(x) @ b<-go(); }
? m anon:0:7
= answer null
= message 10 to anon:0:7 1.0 () reply tok anon:0:5 10
= message 11 to anon:0:7 1.0 () reply tok anon:0:5 11
= message 12 to anon:0:7 1.0 () after 10 11 reply tok anon:0:5 12
= message 13 to anon:0:7 1.0 () after 12
= next 14 6

void m(B b, int d) { b<-go():delay(d); }
? m anon:0:7 0
= answer null
= message 10 to anon:0:7 1.0 ()
= next 11 6
? m anon:0:7 86400000
= answer null
= message 10 to anon:0:7 1.0 () delay 86400000
= next 11 6
? m anon:0:7 86400001
= trap bad-delay
? m anon:0:7 -1
= trap bad-delay
? m anon:0:7 -2147483648
= trap bad-delay

void m(B b) { b<-go():delay(5) @ b<-go() @ b<-go():delay(6); }
? m anon:0:7
= answer null
= message 10 to anon:0:7 1.0 () delay 5 reply tok anon:0:5 10
= message 11 to anon:0:7 1.0 () after 10 reply tok anon:0:5 11
= message 12 to anon:0:7 1.0 () after 11 delay 6
= next 13 6

void m() { standardOutput<-print(); standardOutput<-println(); }
? m
= answer null
= message 10 to output 65535.0 ()
= message 11 to output 65535.1 ()
= next 12 6

void m() { standardOutput<-print("a" + 1) @ standardOutput<-println(-1) @ standardOutput<-print(1 < 2); }
? m
= answer null
= message 10 to output 65535.0 ("a1") reply tok anon:0:5 10
= message 11 to output 65535.1 (-1) after 10 reply tok anon:0:5 11
= message 12 to output 65535.0 (true) after 11
= next 13 6

void m() { standardOutput<-print("late"):delay(7); }
? m
= answer null
= message 10 to output 65535.0 ("late") delay 7
= next 11 6

void m(B b, String s) { migrate(s); b<-migrate("x") @ self<-migrate("y"); }
? m anon:0:7 'rmsp://h/
= answer null
= message 10 to anon:0:5 65535.65535 ("rmsp://h/")
= message 11 to anon:0:7 65535.65535 ("x") reply tok anon:0:5 11
= message 12 to anon:0:5 65535.65535 ("y") after 11
= next 13 6

void m(String s) { B.getReferenceByName(s)<-go(); A.getReferenceByName("uan://h/a")<-m(s); }
? m 'uan://LOCALHOST:80/x/y
= answer null
= message 10 to uan://localhost:80/x/y 1.0 ()
= message 11 to uan://h:3030/a 0.0 ("uan://LOCALHOST:80/x/y")
= next 12 6
? m 'uan://LOCALHOST:80/
= trap bad-name

void m(B b) { int[] a = new int[1]; b<-sum(a); a[0] = 9; b<-sum(a); }
? m anon:0:7
= answer null
= message 10 to anon:0:7 1.3 ([0])
= message 11 to anon:0:7 1.3 ([9])
= next 12 6

void m(B b) { int i = 1; b<-add(i) @ b<-add(i + 1); i = 5; b<-add(i); }
? m anon:0:7
= answer null
= message 10 to anon:0:7 1.2 (1) reply tok anon:0:5 10
= message 11 to anon:0:7 1.2 (2) after 10
= message 12 to anon:0:7 1.2 (5)
= next 13 6

void m(B b) { for (int i = 0; i < 2; i = i + 1) { token x = b<-give(); b<-add(x):waitfor(x); } }
? m anon:0:7
= answer null
= message 10 to anon:0:7 1.1 () reply tok anon:0:5 10
= message 11 to anon:0:7 1.2 (#10) after 10
= message 12 to anon:0:7 1.1 () reply tok anon:0:5 12
= message 13 to anon:0:7 1.2 (#12) after 12
= next 14 6

void m(B b, boolean k) { token x = b<-go(); if (k) { token y = b<-go(); b<-go():waitfor(x, y); } else b<-go():waitfor(x); token y = b<-give(); b<-add(y); }
? m anon:0:7 true
= answer null
= message 10 to anon:0:7 1.0 () reply tok anon:0:5 10
= message 11 to anon:0:7 1.0 () reply tok anon:0:5 11
= message 12 to anon:0:7 1.0 () after 10 11
= message 13 to anon:0:7 1.1 () reply tok anon:0:5 13
= message 14 to anon:0:7 1.2 (#13)
= next 15 6
? m anon:0:7 false
= answer null
= message 10 to anon:0:7 1.0 () reply tok anon:0:5 10
= message 11 to anon:0:7 1.0 () after 10
= message 12 to anon:0:7 1.1 () reply tok anon:0:5 12
= message 13 to anon:0:7 1.2 (#12)
= next 14 6

int n;
void m(B b) { b<-add(n) @ b<-add(this.n + 1); n = 8; }
? m anon:0:7 / 2
= answer null
= fields 8
= message 10 to anon:0:7 1.2 (2) reply tok anon:0:5 10
= message 11 to anon:0:7 1.2 (3) after 10
= next 12 6

int n;
void m(B b, int z) { n = 8; b<-go(); b<-go(); n = 1 / z; }
? m anon:0:7 0 / 2
= trap zero-divisor

behavior A { void m(A a, C c) { a<-k(); c<-k(); c<-m(a, c); } void k() { } }
behavior C { int k() { return 1; } void l() { } void m(A a, C c) { } }
? m anon:0:7 anon:0:8
= answer null
= message 10 to anon:0:7 0.1 ()
= message 11 to anon:0:8 1.0 ()
= message 12 to anon:0:8 1.2 (anon:0:7 anon:0:8)
= next 13 6

behavior A { int m(int m) { m(m); return m; } A(int k) { } int k; void l() { m(k) @ m(token); } }
? m 3 / 4
= answer 3
= fields 4
= message 10 to anon:0:5 0.0 (3)
= next 11 6
? l / 4
= answer null
= fields 4
= message 10 to anon:0:5 0.0 (4) reply tok anon:0:5 10
= message 11 to anon:0:5 0.0 (#10) after 10
= next 12 6

int m(B b) { b<-give() @ currentContinuation; }
? m anon:0:7
= passed
= message 10 to anon:0:7 1.1 () reply tok anon:0:0 4
= next 11 6
? m anon:0:7 reply=nobody
= passed
= message 10 to anon:0:7 1.1 ()
= next 11 6
? m anon:0:7 reply=slot
= passed
= message 10 to anon:0:7 1.1 () reply slot anon:0:0 3 1
= next 11 6
? m anon:0:7 reply=outside
= passed
= message 10 to anon:0:7 1.1 () reply outside 7
= next 11 6
? m null
= trap null-target

int m(B b) { b<-give() @ b<-add(token) @ currentContinuation; }
? m anon:0:7
= passed
= message 10 to anon:0:7 1.1 () reply tok anon:0:5 10
= message 11 to anon:0:7 1.2 (#10) after 10 reply tok anon:0:0 4
= next 12 6

int n;
int m(boolean k, B b) { n = 1; if (k) b<-give() @ currentContinuation; n = 2; return 7; }
? m true anon:0:7 / 0
= passed
= fields 1
= message 10 to anon:0:7 1.1 () reply tok anon:0:0 4
= next 11 6
? m false anon:0:7 / 0
= answer 7
= fields 2

int n;
int m(B b) { for (n = 1; n < 9; n = n + 1) { b<-go(); if (n == 2) { b<-add(n) @ currentContinuation; } } return 0; }
? m anon:0:7 / 0
= passed
= fields 2
= message 10 to anon:0:7 1.0 ()
= message 11 to anon:0:7 1.0 ()
= message 12 to anon:0:7 1.2 (2) reply tok anon:0:0 4
= next 13 6

void m(B b) { b<-go() @ currentContinuation; b<-go(); }
? m anon:0:7
= passed
= message 10 to anon:0:7 1.0 () reply tok anon:0:0 4
= next 11 6

void m() { standardOutput<-println("x") @ currentContinuation; }
? m
= passed
= message 10 to output 65535.1 ("x") reply tok anon:0:0 4
= next 11 6

int[] m(B b) { token x = b<-give(); b<-list():waitfor(x):delay(3) @ currentContinuation; }
? m anon:0:7
= passed
= message 10 to anon:0:7 1.1 () reply tok anon:0:5 10
= message 11 to anon:0:7 1.4 () after 10 delay 3 reply tok anon:0:0 4
= next 12 6

int m(B b, boolean k) { if (k) return 3; else { b<-give() @ currentContinuation; } }
? m anon:0:7 true
= answer 3
? m anon:0:7 false
= passed
= message 10 to anon:0:7 1.1 () reply tok anon:0:0 4
= next 11 6

A m(A a) { a<-m(self) @ a<-m(token) @ currentContinuation; }
? m anon:0:7
= passed
= message 10 to anon:0:7 0.0 (anon:0:5) reply tok anon:0:5 10
= message 11 to anon:0:7 0.0 (#10) after 10 reply tok anon:0:0 4
= next 12 6
"#;
