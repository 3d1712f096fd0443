//! Rows of new actors, universal names, `migrate` and beginnings.

/// New actors with their fields, creations under a name, `getReferenceByName`, `migrate`, and how programs begin.
pub const TABLE: &str = r#"
B m(int k) { return new B(k); }
? m 3
= answer anon:0:6
= actor anon:0:6 1 (3 "b")
= next 10 7

B m() { B a = new B(1); B b = new B(2); return a; }
? m
= answer anon:0:6
= actor anon:0:6 1 (1 "b")
= actor anon:0:7 1 (2 "b")
= next 10 8

behavior A { C m() { return new C(new D()); } }
behavior C { D d; C(D x) { d = x; } }
behavior D { }
? m
= answer anon:0:7
= actor anon:0:6 2 ()
= actor anon:0:7 1 (anon:0:6)
= next 10 8

behavior A { int k = 3; A m() { return new A(); } }
? m / 8
= answer anon:0:6
= fields 8
= actor anon:0:6 0 (3)
= next 10 7

behavior A { Q m() { return new Q(); } }
behavior Q { int a = this.b + 1; int b = 5; int c = this.a; }
? m
= answer anon:0:6
= actor anon:0:6 1 (1 5 1)
= next 10 7

behavior A { Q m() { return new Q(); } }
behavior Q { int i; boolean b; String s; Q q; int[] a; Q[][] r; }
? m
= answer anon:0:6
= actor anon:0:6 1 (0 false "" null [] [])
= next 10 7

behavior A { Q m() { return new Q(); } }
behavior Q {
  int i = 2 * 3; boolean b = 1 < 2 || 1 / 0 == 1; String s = "x" + 1 + true; Q q = null;
  int[] a = new int[] { 1, 2 }; int[] d = new int[2]; int e = this.a[1] + this.a.length;
}
? m
= answer anon:0:6
= actor anon:0:6 1 (6 true "x1true" null [1 2] [0 0] 4)
= next 10 7

behavior A { Q m(int k) { return new Q(1, k); } }
behavior Q {
  int a; int b; int[] c = new int[2];
  Q(int a, int k) { this.a = a + 1; b = k + this.a; ; c[1] = b; this.c[0] = a; b = b * 2; }
}
? m 10
= answer anon:0:6
= actor anon:0:6 1 (2 24 [1 12])
= next 10 7

behavior A { Q m() { return new Q(); } }
behavior Q { Q() { a = 6; } int a = 5; int b = this.a; }
? m
= answer anon:0:6
= actor anon:0:6 1 (6 5)
= next 10 7

behavior A { Q m(int z) { return new Q(z); } }
behavior Q { int[] a = new int[1]; Q(int i) { a[i] = 4; } }
? m 0
= answer anon:0:6
= actor anon:0:6 1 ([4])
= next 10 7
? m 1
= trap index-out-of-range

behavior A { Q m(int z) { return new Q(1 / z); } }
behavior Q { int[] a = new int[-1]; Q(int k) { } }
? m 0
= trap zero-divisor
? m 1
= trap negative-length

behavior A { int n; Q m() { n = 3; k(); return new Q(); } void k() { } }
behavior Q { int a = 1 / 0; int[] b = new int[0]; Q() { b[0] = 1; } }
? m / 0
= trap zero-divisor

behavior A { int[] m() { int[] x = new int[] { 1 }; C c = new C(x); x[0] = 2; return x; } }
behavior C { int[] a; C(int[] y) { a = y; a[0] = a[0] + 4; } }
? m
= answer [2]
= actor anon:0:6 1 ([5])
= next 10 7

void m() { B b = new B(4); b<-add(1) @ b<-take(b); }
? m
= answer null
= message 10 to anon:0:6 1.2 (1) reply tok anon:0:5 10
= message 11 to anon:0:6 1.5 (anon:0:6) after 10
= actor anon:0:6 1 (4 "b")
= next 12 7

void m() { new B(1)<-take(new B(2)); }
? m
= answer null
= message 10 to anon:0:6 1.5 (anon:0:7)
= actor anon:0:6 1 (1 "b")
= actor anon:0:7 1 (2 "b")
= next 11 8

boolean m() { return new B(1) == new B(1); }
? m
= answer false
= actor anon:0:6 1 (1 "b")
= actor anon:0:7 1 (1 "b")
= next 10 8

boolean m(boolean k) { return k && new B(1) != null; }
? m false
= answer false
? m true
= answer true
= actor anon:0:6 1 (1 "b")
= next 10 7

B m(String u) { return new B(3) at (u); }
? m 'uan://h/a
= answer uan://h:3030/a
= creation 10 uan://h:3030/a 1 (3 "b")
= next 11 6
? m 'uan://h
= trap bad-name
? m 'uan://h/
= trap bad-name
? m 'rmsp://h/a
= trap bad-name
? m '
= trap bad-name
? m 'uan://h:0/a
= trap bad-name
? m 'uan://h:65535/a
= answer uan://h:65535/a
= creation 10 uan://h:65535/a 1 (3 "b")
= next 11 6

B m(String u, String l) { return new B(3) at (u, l); }
? m 'uan://h/a 'RMSP://E.org/x
= answer uan://h:3030/a
= creation 10 uan://h:3030/a 1 (3 "b") at rmsp://e.org:4040/
= next 11 6
? m 'uan://h/a 'rmsp://h:1
= answer uan://h:3030/a
= creation 10 uan://h:3030/a 1 (3 "b") at rmsp://h:1/
= next 11 6
? m 'uan://h/a 'e.org
= trap bad-locator
? m 'uan://h/a 'uan://h/a
= trap bad-locator
? m 'x 'e.org
= trap bad-name
? m 'x 'rmsp://h/
= trap bad-name

B m(int[] a, int z) { return new B(a[9]) at ("x" + 1 / z, "y"); }
? m [1] 0
= trap index-out-of-range

B m(int[] a, int z) { return new B(1) at ("x" + 1 / z, "y" + a[9]); }
? m [1] 0
= trap zero-divisor
? m [1] 1
= trap index-out-of-range
? m [1,2,3,4,5,6,7,8,9,10] 1
= trap bad-name

behavior A { Q m(String u, String l) { return new Q() at (u, l); } }
behavior Q { int a = 1 / 0; }
? m 'x 'y
= trap bad-name
? m 'uan://h/a 'y
= trap bad-locator
? m 'uan://h/a 'rmsp://h/
= trap zero-divisor

void m(B b) { b<-go(); B c = new B(1) at ("uan://h/a"); c<-go(); join { c<-go(); }; }
? m anon:0:7
= answer null
= message 10 to anon:0:7 1.0 ()
= message 12 to uan://h:3030/a 1.0 ()
= message 14 to uan://h:3030/a 1.0 () reply slot anon:0:5 13 0
= join 13 slots 1 void
= creation 11 uan://h:3030/a 1 (1 "b")
= next 15 6

void m(B b) { b<-take(new B(1) at ("uan://h/a")) @ b<-take(new B(2) at ("uan://h/b")); }
? m anon:0:7
= answer null
= message 11 to anon:0:7 1.5 (uan://h:3030/a) reply tok anon:0:5 11
= message 13 to anon:0:7 1.5 (uan://h:3030/b) after 11
= creation 10 uan://h:3030/a 1 (1 "b")
= creation 12 uan://h:3030/b 1 (2 "b")
= next 14 6

void m(B b) { join { b<-take(new B(1) at ("uan://h/a")); }; }
? m anon:0:7
= answer null
= message 12 to anon:0:7 1.5 (uan://h:3030/a) reply slot anon:0:5 10 0
= join 10 slots 1 void
= creation 11 uan://h:3030/a 1 (1 "b")
= next 13 6

B m() { B a = new B(1) at ("uan://h/a"); B b = new B(2); a = new B(3) at ("uan://H/a"); return b; }
? m
= answer anon:0:6
= actor anon:0:6 1 (2 "b")
= creation 10 uan://h:3030/a 1 (1 "b")
= creation 11 uan://h:3030/a 1 (3 "b")
= next 12 7

behavior A { C m() { return new C(new C(null) at ("uan://h/a")) at ("uan://h/b"); } }
behavior C { C next; C(C c) { next = c; } }
? m
= answer uan://h:3030/b
= creation 10 uan://h:3030/a 1 (null)
= creation 11 uan://h:3030/b 1 (uan://h:3030/a)
= next 12 6

B m(String s) { return B.getReferenceByName(s); }
? m 'uan://h/a
= answer uan://h:3030/a
? m 'uan://h
= trap bad-name
? m '
= trap bad-name

B m(String s) { return (B) B.getReferenceByName("uan://" + s); }
? m 'X.org:3030/A
= answer uan://x.org:3030/A

boolean m(B b) { return b == B.getReferenceByName("uan://h/a"); }
? m anon:0:7
= answer false
? m null
= answer false

int n;
void m() { }
? migrate 'rmsp://h/ / 3
= answer null
= fields 3
? migrate 'RMSP://H.org:65535 / 3
= answer null
= fields 3
? migrate 'rmsp://h:65536/ / 3
= trap bad-locator
? migrate 'rmsp:/h/ / 3
= trap bad-locator
? migrate 'uan://h/a / 3
= trap bad-locator
? migrate ' / 3
= trap bad-locator

behavior A { int n = 4; void k() { } void act(String[] args) { } }
? begin
= begins 0.1 (4)

behavior A { int n = 4; A() { n = n + 1; } void act(String[] args) { } }
? begin
= begins 0.0 (5)

behavior A { int n = 4; A(int k) { n = 9; } void act(String[] args) { } }
? begin
= begins 0.0 (4)

behavior A { void act(int x) { } }
behavior C { int act(String[] x) { return 1; } }
behavior D { void act(String x) { } }
behavior E { void k() { } void act(String[] x) { } }
? begin
= begins 3.1 ()

behavior A { int n = 1 / 0; void act(String[] args) { } }
? begin
= trap zero-divisor

behavior A { int[] n; A() { n[0] = 1; } void act(String[] args) { } }
? begin
= trap index-out-of-range

behavior A { int[] n; A(int k) { n[0] = 1; } void act(String[] args) { } }
? begin
= begins 0.0 ([])
"#;
