//! Rows of statements.

/// Declarations, assignments, blocks, conditions, loops and `return`.
pub const TABLE: &str = r#"
void m() { }
? m
= answer null

void m() { ; ; }
? m
= answer null

int m() { int x; return x; }
? m
= answer 0

boolean m() { boolean x; return x; }
? m
= answer false

String m() { String x; return x; }
? m
= answer ""

B m() { B x; return x; }
? m
= answer null

int[] m() { int[] x; return x; }
? m
= answer []

B[][] m() { B[][] x; return x; }
? m
= answer []

int m(int a) { int x = a + 1; int y = x * 2; return y; }
? m 4
= answer 10

int m(int a) { a = a + 1; a = a * 2; return a; }
? m 4
= answer 10

int m() { int x = 1; { int y = 2; x = x + y; } int y = 5; return x * 10 + y; }
? m
= answer 35

int x;
int m() { { int x = 3; x = 4; } return x; }
? m / 9
= answer 9
= fields 9

int x;
int m() { x = 3; int x = 5; x = 6; this.x = this.x + x; return x; }
? m / 0
= answer 6
= fields 9

int x;
String s;
void m(String t) { x = x + 1; s = s + t; }
? m 'b / 1 'a
= answer null
= fields 2 "ab"

int m(boolean a, boolean b) { if (a) if (b) return 1; else return 2; return 3; }
? m true true
= answer 1
? m true false
= answer 2
? m false false
= answer 3

int m(int n) { if (n < 0) return -1; else if (n == 0) return 0; else return 1; }
? m -5
= answer -1
? m 0
= answer 0
? m 5
= answer 1

int m(boolean b) { int y = 0; if (b) { int x = 1; y = x; } else { int x = 2; y = x; } int x = 3; return y * 10 + x; }
? m true
= answer 13
? m false
= answer 23

int m(boolean b) { if (b) int x = 1; int x = 2; return x; }
? m true
= answer 2

int m(int n) { int i = 0; while (i < n) i = i + 1; return i; }
? m 5
= answer 5
? m 0
= answer 0
? m -1
= answer 0

int m() { int s = 0; for (int i = 0; i < 3; i = i + 1) s = s * 10 + i + 1; return s; }
? m
= answer 123

int m() { int s = 0; for (int i = 0; i < 3; i = i + 1) s = s + i; int i = 10; return s + i; }
? m
= answer 13

int m() { int i; for (i = 2; i < 5; i = i + 2) ; return i; }
? m
= answer 6

int m() { int i = 0; for (;;) { i = i + 1; if (i == 3) return i; } return 0; }
? m
= answer 3

int m() { int i = 0; for (; i < 4;) i = i + 3; return i; }
? m
= answer 6

int i;
int m() { for (i = 1; i < 3; this.i = this.i + 1) ; return i; }
? m / 0
= answer 3
= fields 3

int m() { int s = 0; for (int i = 0; i < 3; i = i + 1) { int x; x = x + 1; s = s + x; } return s; }
? m
= answer 3

int m() { int s = 0; for (int i = 0; i < 3; i = i + 1) for (int j = 0; j < i; j = j + 1) s = s + 10 * i + j; return s; }
? m
= answer 51

int m() { int s = 0; int i = 0; while (i < 9) { i = i + 1; while (true) { s = s + 1; if (s > 3) return s * 10 + i; else i = i + 1; } } return 0; }
? m
= answer 44

int m(int n) { for (int i = n; i > 0; i = i - 1) int x = i; return n; }
? m 2
= answer 2

int n;
int m() { n = 1; return n; n = 2; }
? m / 0
= answer 1
= fields 1

int n;
void m(boolean b) { n = 1; if (b) return; n = 2; }
? m true / 0
= answer null
= fields 1
? m false / 0
= answer null
= fields 2

int n;
int m() { n = 1; { return 7; } }
? m / 0
= answer 7
= fields 1

int n;
int m(int z) { n = 5; n(); return 1 / z; }
void n() { }
? m 0 / 3
= trap zero-divisor
? m 1 / 3
= answer 1
= fields 5
= message 10 to anon:0:5 0.1 ()
= next 11 6

int[] f;
void m() { f[1] = 5; this.f[0] = f[1] - 1; }
? m / [7,8,9]
= answer null
= fields [4 5 9]

int[] f;
int m() { int[] a = f; a[0] = 3; return f[0]; }
? m / [1]
= answer 1
= fields [1]

int[] f;
int m() { int[] a = new int[] { 1, 2 }; f = a; a[0] = 3; return a[0]; }
? m / []
= answer 3
= fields [1 2]

int m() { int[] a = new int[] { 1, 2 }; int[] b = a; b[0] = 9; return a[0] * 100 + b[0]; }
? m
= answer 109

int[] f;
int[] m(int[] a) { a[0] = 9; f[0] = 8; return a; }
? m [1] / [1]
= answer [9]
= fields [8]

int[][] m() { int[][] a = new int[2][]; int[] r = new int[] { 1 }; a[0] = r; a[1] = r; r[0] = 2; a[1][0] = 3; return a; }
? m
= answer [[1] [3]]

int[][] m() { int[][] a = new int[][] { new int[] { 1 }, new int[] { 2 } }; a[0] = a[1]; a[1][0] = 7; return a; }
? m
= answer [[2] [7]]

int[] m() { int[] a = new int[] { 1, 0 }; a[a[0]] = a[a[1]] + 4; return a; }
? m
= answer [1 5]

int[] m() { int[] a = new int[] { 1, 2 }; a = new int[] { a[1], a[0] }; return a; }
? m
= answer [2 1]

int[] m(int i, int z) { int[] a = new int[2]; a[i] = 1 / z; return a; }
? m 5 0
= trap zero-divisor
? m 5 1
= trap index-out-of-range
? m -1 1
= trap index-out-of-range
? m 2 1
= trap index-out-of-range
? m 1 1
= answer [0 1]

int[] m(int[] b, int z) { int[] a = new int[2]; a[b[1]] = 1 / z; return a; }
? m [0] 0
= trap index-out-of-range
? m [0,1] 0
= trap zero-divisor
? m [0,1] 1
= answer [0 1]

int[][] m(int i, int z) { int[][] a = new int[2][]; a[i][1 / z] = 3; return a; }
? m 9 0
= trap zero-divisor
? m 9 1
= trap index-out-of-range
? m 1 1
= trap index-out-of-range

int[][] m(int i, int j, int z) { int[][] a = new int[][] { new int[2] }; a[i][j] = 4 / z; return a; }
? m 0 2 0
= trap zero-divisor
? m 0 2 1
= trap index-out-of-range
? m 0 1 2
= answer [[0 2]]

int[] f;
int m() { int[] f = new int[] { 1 }; f[0] = 2; this.f[0] = 3; return f[0]; }
? m / [0]
= answer 2
= fields [3]

String[] m() { String[] a = new String[2]; a[1] = "x"; return a; }
? m
= answer ["" "x"]

B[] m(B b) { B[] a = new B[] { b, b }; a[0] = null; return a; }
? m anon:0:7
= answer [null anon:0:7]

int m(int x) { while (x > 100) { x = x / 2; if (x % 2 == 1) return x; } return -x; }
? m 404
= answer 101
? m 400
= answer -100

boolean m(int n) { boolean even = true; for (int i = 0; i != n; i = i + 1) even = !even; return even; }
? m 6
= answer true
? m 7
= answer false
"#;
