//! Rows of expressions.

/// Numbers, texts, booleans, references, names and arrays.
pub const TABLE: &str = r#"
int m(int a, int b) { return a + b; }
? m 1 2
= answer 3
? m 2147483647 1
= answer -2147483648
? m -2147483648 -1
= answer 2147483647

int m(int a, int b) { return a - b; }
? m 3 5
= answer -2
? m -2147483648 1
= answer 2147483647

int m(int a, int b) { return a * b; }
? m -6 7
= answer -42
? m 65536 65536
= answer 0
? m 46341 46341
= answer -2147479015
? m -2147483648 -1
= answer -2147483648

int m(int a, int b) { return a / b; }
? m -7 2
= answer -3
? m 7 -2
= answer -3
? m -2147483648 -1
= answer -2147483648
? m 0 5
= answer 0
? m 5 0
= trap zero-divisor
? m 0 0
= trap zero-divisor

int m(int a, int b) { return a % b; }
? m -7 2
= answer -1
? m 7 -2
= answer 1
? m -2147483648 -1
= answer 0
? m 5 0
= trap zero-divisor

int m(int a) { return -a; }
? m 5
= answer -5
? m -2147483648
= answer -2147483648

int m(int a) { return - - -a; }
? m 5
= answer -5

int m() { return -2147483648; }
? m
= answer -2147483648

int m() { return 2147483647; }
? m
= answer 2147483647

int m() { return -2147483648 - 1; }
? m
= answer 2147483647

int m() { return 1 + 2 * 3 - 4 / 2; }
? m
= answer 5

int m() { return (1 + 2) * 3; }
? m
= answer 9

int m() { return 10 - 4 - 3; }
? m
= answer 3

int m() { return 100 / 10 / 5; }
? m
= answer 2

int m() { return 2 * 7 % 4; }
? m
= answer 2

int m() { return -7 % 4 * 2; }
? m
= answer -6

boolean m(int a, int b) { return a < b; }
? m 1 2
= answer true
? m 2 2
= answer false
? m -2147483648 2147483647
= answer true

boolean m(int a, int b) { return a <= b; }
? m 2 2
= answer true
? m 3 2
= answer false

boolean m(int a, int b) { return a > b; }
? m 2 1
= answer true
? m 2 2
= answer false

boolean m(int a, int b) { return a >= b; }
? m 2 2
= answer true
? m 1 2
= answer false

boolean m(int a, int b) { return a < b == b > a; }
? m 1 2
= answer true
? m 2 1
= answer true

boolean m(int a, int b) { return a == b; }
? m 4 4
= answer true
? m 4 -4
= answer false

boolean m(int a, int b) { return a != b; }
? m 4 4
= answer false
? m 4 5
= answer true

boolean m(boolean a, boolean b) { return a == b; }
? m true true
= answer true
? m false false
= answer true
? m true false
= answer false

boolean m(String a, String b) { return a == b; }
? m 'ab 'ab
= answer true
? m 'ab 'aB
= answer false
? m ' '
= answer true

boolean m(String a) { return a + "b" == "ab"; }
? m 'a
= answer true

boolean m(B a, B b) { return a == b; }
? m anon:0:7 anon:0:7
= answer true
? m anon:0:7 anon:0:8
= answer false
? m null anon:0:8
= answer false
? m null null
= answer true

boolean m(B b) { return b == null; }
? m null
= answer true
? m anon:0:7
= answer false

boolean m(B b) { return null != b; }
? m null
= answer false
? m anon:0:7
= answer true

boolean m(A a) { return self == a; }
? m anon:0:5
= answer true
? m anon:0:6
= answer false

boolean m(String s) { return A.getReferenceByName(s) == A.getReferenceByName("uan://h/a"); }
? m 'uan://H:3030/a
= answer true
? m 'uan://h:3031/a
= answer false
? m 'UAN://h/a
= answer true
? m 'uan://h/A
= answer false

String m() { return 1 + 2 + "a"; }
? m
= answer "3a"

String m() { return "a" + 1 + 2; }
? m
= answer "a12"

String m() { return "a" + (1 + 2); }
? m
= answer "a3"

String m(int a, boolean b) { return "" + a + b; }
? m -2147483648 true
= answer "-2147483648true"
? m 0 false
= answer "0false"

String m(boolean b, String s) { return b + s; }
? m false 'x
= answer "falsex"

boolean m(int a, int b) { return b != 0 && a / b > 1; }
? m 4 0
= answer false
? m 4 2
= answer true
? m 4 4
= answer false

boolean m(int a, int b) { return b == 0 || a / b > 1; }
? m 4 0
= answer true
? m 4 4
= answer false
? m 4 2
= answer true

boolean m(int a, int b) { return a / b > 1 && b != 0; }
? m 4 0
= trap zero-divisor

boolean m(int z) { return true && 1 / z == 1; }
? m 0
= trap zero-divisor
? m 1
= answer true

boolean m(int z) { return false || 1 / z == 1; }
? m 0
= trap zero-divisor

boolean m(int z) { return true || true && 1 / z == 1; }
? m 0
= answer true

boolean m(int z) { return false && 1 / z == 1 || true; }
? m 0
= answer true

boolean m(int z) { return true || 1 / z == 1 || 2 / z == 1; }
? m 0
= answer true

boolean m(boolean a, boolean b) { return !a == b; }
? m true false
= answer true
? m true true
= answer false

boolean m(boolean a) { return !!(a && !a); }
? m true
= answer false

int x;
int m() { int x = 1; return x * 10 + this.x; }
? m / 7
= answer 17
= fields 7

int x;
int m() { return x + this.x; }
? m / 7
= answer 14
= fields 7

int x;
int m(int x) { this.x = x + this.x; return x; }
? m 2 / 7
= answer 2
= fields 9

A m() { return self; }
? m
= answer anon:0:5

B m() { return null; }
? m
= answer null

boolean m() { return true; }
? m
= answer true

String m() { return "a b" + "c"; }
? m
= answer "a bc"

int m(int[] a, int i) { return a[i]; }
? m [4,5,6] 0
= answer 4
? m [4,5,6] 2
= answer 6
? m [4,5,6] 3
= trap index-out-of-range
? m [4,5,6] -1
= trap index-out-of-range
? m [4,5,6] -2147483648
= trap index-out-of-range
? m [] 0
= trap index-out-of-range

int m(int[] a) { return a.length; }
? m [4,5,6]
= answer 3
? m []
= answer 0

int m(int[] a) { return a[a[0]]; }
? m [2,5,6]
= answer 6

int m(int i, int z) { int[][] a = new int[2][]; return a[i][1 / z]; }
? m 2 0
= trap index-out-of-range
? m 1 0
= trap zero-divisor
? m 1 1
= trap index-out-of-range

int m(int[] a, int z) { return a[9] + 1 / z; }
? m [1] 0
= trap index-out-of-range

int m(int[] a, int z) { return 1 / z + a[9]; }
? m [1] 0
= trap zero-divisor
? m [1] 1
= trap index-out-of-range

int[] m(int[] a, int z) { return new int[] { a[9], 1 / z }; }
? m [1] 0
= trap index-out-of-range

int[] m(int[] a, int z) { return new int[] { 1 / z, a[9] }; }
? m [1] 0
= trap zero-divisor

String m(int[] a, int z) { return "x" + 1 / z + a[9]; }
? m [1] 0
= trap zero-divisor

int[] m(int n) { return new int[n]; }
? m 3
= answer [0 0 0]
? m 0
= answer []
? m -1
= trap negative-length
? m -2147483648
= trap negative-length
? m 4097
= trap too-large

boolean[] m() { return new boolean[2]; }
? m
= answer [false false]

String[] m() { return new String[2]; }
? m
= answer ["" ""]

B[] m() { return new B[2]; }
? m
= answer [null null]

int[][] m(int n) { return new int[n][]; }
? m 2
= answer [[] []]
? m -1
= trap negative-length

int[] m(int a) { return new int[] { a, a + 1, a * a }; }
? m 5
= answer [5 6 25]

int[] m() { return new int[] { }; }
? m
= answer []

int[][] m() { return new int[][] { new int[] { 1 }, new int[2], new int[] { } }; }
? m
= answer [[1] [0 0] []]

int m(int n) { return (new int[n]).length; }
? m 4096
= answer 4096

int m() { return (new int[][] { new int[] { 7, 8 } })[0][1]; }
? m
= answer 8

A[] m(A a) { return new A[] { a, self, null }; }
? m anon:0:7
= answer [anon:0:7 anon:0:5 null]

String[] m() { return new String[] { "a", "b" + 1 }; }
? m
= answer ["a" "b1"]

int m(int[] a) { return (new int[][] { new int[7], a })[1].length - 1; }
? m [4,5,6]
= answer 2

String m(String s) { return "a\\b\'" + s; }
? m 'c
= answer "a\b'c"

boolean m() { return "\t\n" == "\t" + "\n" && "\"" != ""; }
? m
= answer true
"#;
