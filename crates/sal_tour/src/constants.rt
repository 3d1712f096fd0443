//! What the tour is made of.

/// The factor of a draw.
pub const FACTOR: u64 = 6_364_136_223_846_793_005;

/// What a draw adds.
pub const ADDEND: u64 = 1_442_695_040_888_963_407;

/// How many events are drawn.
pub const DRAWN_EVENTS: u32 = 20_000;

/// The rounds of the last event, which isn't drawn.
pub const LAST_ROUNDS: u32 = 10_000;

/// The port of the first theatre; the others follow it.
pub const FIRST_PORT: u16 = 4_040;

/// How many theatres there are.
pub const THEATRES: u16 = 8;

/// The port of the naming service.
pub const SERVICE_PORT: u16 = 3_030;

/// The program.
pub const PROGRAM: &str = r#"behavior Stone {
  int seen;
  int visit(String to) { seen = seen + 1; self<-migrate(to); return seen; }
}
behavior Tour {
  Stone[] stones;
  int sum(int[] xs) {
    int s = 0;
    for (int i = 0; i < xs.length; i = i + 1) s = s + xs[i];
    return s;
  }
  int lap(String[] to, int shift) {
    join { for (int i = 0; i < stones.length; i = i + 1)
      stones[i]<-visit(to[(i + shift) % 8]); }
      @ self<-sum(token) @ currentContinuation;
  }
  void act(String[] args) {
    stones = new Stone[64];
    for (int i = 0; i < 64; i = i + 1)
      stones[i] = new Stone() at ("uan://localhost:3030/s" + i, args[i % 8]);
    token one = self<-lap(args, 1);
    token two = self<-lap(args, 3):waitfor(one);
    standardOutput<-println(one) @ standardOutput<-println(two);
  }
}
"#;
