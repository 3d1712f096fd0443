//! Rows of joins.

/// Slots, numbers, and what the messages in a join's block wait for.
pub const TABLE: &str = r#"
void m(B b) { join { b<-give(); b<-give(); } @ b<-sum(token); }
? m anon:0:7
= answer null
= message 11 to anon:0:7 1.1 () reply slot anon:0:5 10 0
= message 12 to anon:0:7 1.1 () reply slot anon:0:5 10 1
= message 13 to anon:0:7 1.3 (#10) after 10
= join 10 slots 2 reply tok anon:0:5 10
= next 14 6

void m(B b) { join { b<-go(); b<-go(); }; }
? m anon:0:7
= answer null
= message 11 to anon:0:7 1.0 () reply slot anon:0:5 10 0
= message 12 to anon:0:7 1.0 () reply slot anon:0:5 10 1
= join 10 slots 2 void
= next 13 6

void m(B b, boolean k) { join { if (k) b<-go(); }; }
? m anon:0:7 false
= answer null
= join 10 slots 0 void
= next 11 6
? m anon:0:7 true
= answer null
= message 11 to anon:0:7 1.0 () reply slot anon:0:5 10 0
= join 10 slots 1 void
= next 12 6

void m(B b, boolean k) { join { if (k) b<-give(); } @ b<-sum(token); }
? m anon:0:7 false
= answer null
= message 11 to anon:0:7 1.3 (#10) after 10
= join 10 slots 0 reply tok anon:0:5 10
= next 12 6

void m(B b, int n) { join { for (int i = 0; i < n; i = i + 1) b<-add(i); } @ b<-sum(token); }
? m anon:0:7 3
= answer null
= message 11 to anon:0:7 1.2 (0) reply slot anon:0:5 10 0
= message 12 to anon:0:7 1.2 (1) reply slot anon:0:5 10 1
= message 13 to anon:0:7 1.2 (2) reply slot anon:0:5 10 2
= message 14 to anon:0:7 1.3 (#10) after 10
= join 10 slots 3 reply tok anon:0:5 10
= next 15 6

void m(B b) { join { b<-give() @ b<-add(token); b<-give(); } @ b<-sum(token); }
? m anon:0:7
= answer null
= message 11 to anon:0:7 1.1 () reply tok anon:0:5 11
= message 12 to anon:0:7 1.2 (#11) after 11 reply slot anon:0:5 10 0
= message 13 to anon:0:7 1.1 () reply slot anon:0:5 10 1
= message 14 to anon:0:7 1.3 (#10) after 10
= join 10 slots 2 reply tok anon:0:5 10
= next 15 6

void m(B b) { b<-go() @ join { b<-go(); } @ b<-go(); }
? m anon:0:7
= answer null
= message 10 to anon:0:7 1.0 () reply tok anon:0:5 10
= message 12 to anon:0:7 1.0 () after 10 reply slot anon:0:5 11 0
= message 13 to anon:0:7 1.0 () after 11
= join 11 slots 1 void reply tok anon:0:5 11
= next 14 6

void m(B b) { b<-go() @ join { b<-give() @ b<-add(token); }; }
? m anon:0:7
= answer null
= message 10 to anon:0:7 1.0 () reply tok anon:0:5 10
= message 12 to anon:0:7 1.1 () after 10 reply tok anon:0:5 12
= message 13 to anon:0:7 1.2 (#12) after 12 10 reply slot anon:0:5 11 0
= join 11 slots 1
= next 14 6

void m(B b) { join { join { b<-give(); b<-give(); }; b<-list(); }; }
? m anon:0:7
= answer null
= message 12 to anon:0:7 1.1 () reply slot anon:0:5 11 0
= message 13 to anon:0:7 1.1 () reply slot anon:0:5 11 1
= message 14 to anon:0:7 1.4 () reply slot anon:0:5 10 1
= join 10 slots 2
= join 11 slots 2 reply slot anon:0:5 10 0
= next 15 6

void m(B b) { join { b<-go(); join { b<-go(); b<-go(); b<-go(); } @ b<-go(); b<-go(); }; }
? m anon:0:7
= answer null
= message 11 to anon:0:7 1.0 () reply slot anon:0:5 10 0
= message 13 to anon:0:7 1.0 () reply slot anon:0:5 12 0
= message 14 to anon:0:7 1.0 () reply slot anon:0:5 12 1
= message 15 to anon:0:7 1.0 () reply slot anon:0:5 12 2
= message 16 to anon:0:7 1.0 () after 12 reply slot anon:0:5 10 1
= message 17 to anon:0:7 1.0 () reply slot anon:0:5 10 2
= join 10 slots 3 void
= join 12 slots 3 void reply tok anon:0:5 12
= next 18 6

void m(B b) { b<-go() @ join { b<-go() @ join { b<-go(); }; }; }
? m anon:0:7
= answer null
= message 10 to anon:0:7 1.0 () reply tok anon:0:5 10
= message 12 to anon:0:7 1.0 () after 10 reply tok anon:0:5 12
= message 14 to anon:0:7 1.0 () after 12 10 reply slot anon:0:5 13 0
= join 11 slots 1 void
= join 13 slots 1 void reply slot anon:0:5 11 0
= next 15 6

void m(B b) { b<-go() @ join { join { join { b<-go(); }; }; }; }
? m anon:0:7
= answer null
= message 10 to anon:0:7 1.0 () reply tok anon:0:5 10
= message 14 to anon:0:7 1.0 () after 10 reply slot anon:0:5 13 0
= join 11 slots 1 void
= join 12 slots 1 void reply slot anon:0:5 11 0
= join 13 slots 1 void reply slot anon:0:5 12 0
= next 15 6

void m(B b) { token x = b<-go(); b<-go() @ join { b<-go():waitfor(x) @ b<-go():waitfor(x); }; }
? m anon:0:7
= answer null
= message 10 to anon:0:7 1.0 () reply tok anon:0:5 10
= message 11 to anon:0:7 1.0 () reply tok anon:0:5 11
= message 13 to anon:0:7 1.0 () after 10 11 reply tok anon:0:5 13
= message 14 to anon:0:7 1.0 () after 10 13 11 reply slot anon:0:5 12 0
= join 12 slots 1 void
= next 15 6

void m(B b) { token x = join { b<-give(); }; b<-sum(x); }
? m anon:0:7
= answer null
= message 11 to anon:0:7 1.1 () reply slot anon:0:5 10 0
= message 12 to anon:0:7 1.3 (#10)
= join 10 slots 1 reply tok anon:0:5 10
= next 13 6

void m(B b) { token x = b<-give(); join { b<-add(x); b<-go() @ b<-add(x); }; }
? m anon:0:7
= answer null
= message 10 to anon:0:7 1.1 () reply tok anon:0:5 10
= message 12 to anon:0:7 1.2 (#10) reply slot anon:0:5 11 0
= message 13 to anon:0:7 1.0 () reply tok anon:0:5 13
= message 14 to anon:0:7 1.2 (#10) after 13 reply slot anon:0:5 11 1
= join 11 slots 2
= next 15 6

int[] m(B b) { join { b<-give(); } @ currentContinuation; }
? m anon:0:7
= passed
= message 11 to anon:0:7 1.1 () reply slot anon:0:5 10 0
= join 10 slots 1 reply tok anon:0:0 4
= next 12 6
? m anon:0:7 reply=slot
= passed
= message 11 to anon:0:7 1.1 () reply slot anon:0:5 10 0
= join 10 slots 1 reply slot anon:0:0 3 1
= next 12 6

int m(B b) { b<-go() @ join { b<-give(); } @ b<-sum(token) @ currentContinuation; }
? m anon:0:7
= passed
= message 10 to anon:0:7 1.0 () reply tok anon:0:5 10
= message 12 to anon:0:7 1.1 () after 10 reply slot anon:0:5 11 0
= message 13 to anon:0:7 1.3 (#11) after 11 reply tok anon:0:0 4
= join 11 slots 1 reply tok anon:0:5 11
= next 14 6

int n;
int m(B b) { int k = 0; join { k = k + 1; b<-add(k); int k2 = 7; n = k2; { b<-add(k + k2); } k = k + 1; }; return k; }
? m anon:0:7 / 0
= answer 2
= fields 7
= message 11 to anon:0:7 1.2 (1) reply slot anon:0:5 10 0
= message 12 to anon:0:7 1.2 (8) reply slot anon:0:5 10 1
= join 10 slots 2
= next 13 6

void m(B b) { join { b<-go(); } @ join { b<-go(); } @ join { b<-go(); }; }
? m anon:0:7
= answer null
= message 11 to anon:0:7 1.0 () reply slot anon:0:5 10 0
= message 13 to anon:0:7 1.0 () after 10 reply slot anon:0:5 12 0
= message 15 to anon:0:7 1.0 () after 12 reply slot anon:0:5 14 0
= join 10 slots 1 void reply tok anon:0:5 10
= join 12 slots 1 void reply tok anon:0:5 12
= join 14 slots 1 void
= next 16 6

void m(B b, int n) { for (int i = 0; i < n; i = i + 1) join { b<-add(i); }; b<-go(); }
? m anon:0:7 2
= answer null
= message 11 to anon:0:7 1.2 (0) reply slot anon:0:5 10 0
= message 13 to anon:0:7 1.2 (1) reply slot anon:0:5 12 0
= message 14 to anon:0:7 1.0 ()
= join 10 slots 1
= join 12 slots 1
= next 15 6

void m() { join { standardOutput<-print("a"); standardOutput<-println(); } @ standardOutput<-print("b"); }
? m
= answer null
= message 11 to output 65535.0 ("a") reply slot anon:0:5 10 0
= message 12 to output 65535.1 () reply slot anon:0:5 10 1
= message 13 to output 65535.0 ("b") after 10
= join 10 slots 2 void reply tok anon:0:5 10
= next 14 6

void m(B b, B c) { join { b<-go(); c<-go(); }; }
? m anon:0:7 null
= trap null-target

void m(B b, int z) { join { b<-go(); } @ b<-add(1 / z); }
? m anon:0:7 0
= trap zero-divisor

void m(B b) { join { b<-go(); new B(1)<-go(); }; }
? m anon:0:7
= answer null
= message 11 to anon:0:7 1.0 () reply slot anon:0:5 10 0
= message 12 to anon:0:6 1.0 () reply slot anon:0:5 10 1
= join 10 slots 2 void
= actor anon:0:6 1 (1 "b")
= next 13 7

behavior A { int add(int[] x) { return x[0] + x[1]; } int compute(int n) { if (n < 2) return n; join { new A()<-compute(n - 1); new A()<-compute(n - 2); } @ add(token) @ currentContinuation; } }
? compute 1 serial=0
= answer 1
? compute 10 serial=0
= passed
= message 1 to anon:0:6 0.1 (9) reply slot anon:0:5 0 0
= message 2 to anon:0:7 0.1 (8) reply slot anon:0:5 0 1
= message 3 to anon:0:5 0.0 (#0) after 0 reply tok anon:0:0 4
= join 0 slots 2 reply tok anon:0:5 0
= actor anon:0:6 0 ()
= actor anon:0:7 0 ()
= next 4 8
? add [3,4]
= answer 7
? add [3]
= trap index-out-of-range
"#;
