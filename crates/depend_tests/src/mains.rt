//! Programs in which an `@` stands before each use that is to be marked, worked out by hand.

/// What the mains call.
pub const DECLARATIONS: &str = "
struct pair { int left, right; };
regular mentat class calc {
  int sq(int x) { rtf(x * x); }
  int add(int x, int y) { rtf(x + y); }
  bool odd(int x) { rtf(x % 2 == 1); }
  pair both(int x) { pair p; p.left = x; p.right = x; rtf(p); }
};
int twice(int x) { return x + x; }
persistent mentat class cell {
  int v;
  void put(int x) { v = x; }
  int get() { rtf(v); }
  cell me() { rtf(self); }
};
struct box { cell c; int n; };
regular mentat class maker { box fresh() { box b; rtf(b); } };
";

pub const MAINS: &[&str] = &[
    // a copy is no use, and a use leaves what it forced known
    "int main() { calc w; int a = w.sq(3); int b = w.sq(4); int c = a; print(@c); print(c + @b); }",
    "int main() { calc w; int a = w.sq(2); int b = a; int c = b; print(@c); print(@b); print(@a, a); }",
    "int main() { calc w; int a = w.sq(2); int b = (@a); print(b); }",
    "int main() { calc w; w.sq(2); int a = w.sq(2); print(1); }",
    // an assignment on one way, on both, on the only one
    "int main() { calc w; int a = w.sq(2); if (true) { a = 1; } print(@a); }",
    "int main() { calc w; int a = w.sq(2); a = 1; print(a); }",
    "int main() { calc w; int a = w.sq(2); if (1 < 2) a = 1; else a = 2; print(a); }",
    "int main() { calc w; int a; if (1 < 2) { a = w.sq(2); } else { a = 3; } print(@a); }",
    "int main() { calc w; int a = w.sq(2); if (1 < 2) print(@a); print(@a); }",
    // loops: in the test, before and behind, from round to round, in one another
    "int main() { calc w; int a = 1; while (@a < 9) { a = w.sq(2); } print(a); }",
    "int main() { calc w; int a = 0, i = 0; print(a); while (i < 3) { a = w.sq(i); i = i + 1; } print(@a); }",
    "int main() { calc w; int a = 1, i = 0; while (i < 3) { print(@a); a = w.sq(2); i = i + 1; } print(@a); }",
    "int main() { calc w; int a = 1, b = 1, c = 1, i = 0; while (i < 9) { print(@c); c = b; b = a; a = w.sq(2); i = i + 1; } }",
    "int main() { calc w; int a = 1, i = 0; while (i < 2) { int j = 0; while (j < 2) { print(@a); j = j + 1; } a = w.sq(i); i = i + 1; } }",
    "int main() { calc w; int a = w.sq(2), i = 0; while (i < 3) { i = i + @a; } print(@a); }",
    "int main() { calc w; int a = 1; while (1 < 2) { a = w.sq(2); if (2 < 1) return 0; a = 3; } print(a); }",
    // `for`: a step that forces, one that makes a call, a start that is assigned
    "int main() { calc w; int a = w.sq(2); for (int i = 0; i < 3; i = i + @a) { print(i); } print(@a); }",
    "int main() { calc w; int a = 1; for (int i = 0; i < @a; a = w.sq(i)) { i = i + 1; print(a); } print(a); }",
    "int main() { calc w; int a; for (a = w.sq(3); @a < 3; a = a + 1) ; print(a); }",
    // `&&` and `||`, whose right side is evaluated or isn't
    "int main() { calc w; int a = w.sq(2); if (1 < 2 && @a == 4) { print(@a); } print(@a); }",
    "int main() { calc w; bool t = w.odd(3); if (@t || false) { print(t); } print(t); }",
    "int main() { calc w; bool t = w.odd(3); bool u = 1 < 2 || @t; print(u); print(@t); }",
    // `return` on one way
    "int main() { calc w; int a = w.sq(2); if (1 < 2) { print(@a); return 0; } print(@a); }",
    "int main() { calc w; int a = 1; if (1 < 2) { a = w.sq(2); return 0; } print(a); }",
    "int main() { calc w; int a = w.sq(2); return @a; print(a); }",
    // arguments: calls, copies, values
    "int main() { calc w; int a = w.add(w.sq(2), w.sq(3)); print(@a); }",
    "int main() { calc w; int a = w.sq(2); int b = twice(@a); print(b, a); }",
    "int main() { calc w; int a = w.sq(2); int b = w.add(a, @a + 1); print(@b, a); }",
    // structs and arrays: a part that is stored, a part that is read, an index
    "int main() { calc w; pair p = w.both(2); @p.left = 1; print(p.left, p.right); }",
    "int main() { calc w; pair p = w.both(2); pair q = p; print(@q.left, q.right); print(@p.left); }",
    "int main() { calc w; pair p; p.left = w.sq(2); print(p.left); }",
    "int main() { calc w; pair p = w.both(2); pair q; q.right = @p.left; print(q.right, p.right); }",
    "int main() { calc w; int v[3]; int a = w.sq(1); v[@a] = 5; print(v[a]); }",
    // receivers that are results, and objects that are created in them
    "int main() { cell c; c.create(); c.put(1); int a = c.get(); cell d = c.me(); @d.put(2); int b = d.get(); print(@a, @b); }",
    "int main() { cell c; c.create(); cell d = c.me(); d.create(); d.put(1); }",
    "int main() { maker m; box b = m.fresh(); @b.c.create(); b.c.put(1); }",
    "int main() { maker m; box b = m.fresh(); int n = @b.c.get(); print(b.n, @n); }",
    // formals and states of members
    "regular mentat class deep { int f(int x) { calc w; x = w.sq(x); rtf(@x + 1); } int g(int x, int y) { calc w; y = w.sq(x); rtf(x + @y); } int h(int x) { calc w; int y = w.sq(x); rtf(y); } }; int main() { }",
    "persistent mentat class total { int s; void more(int x) { calc w; int a = w.sq(x); s = @a; s = s + a; } int now() { rtf(s); } int soon() { int a = self.now(); rtf(@a + s); } }; int main() { }",
    "regular mentat class late { int f(int x) { calc w; if (x < 2) { x = w.sq(x); } rtf(@x + 1); } }; int main() { }",
    "regular mentat class early { int f(int x) { calc w; if (x < 2) { x = w.sq(x); rtf(x); return; } rtf(x * 2); } }; int main() { }",
    "int f(int x) { int y = x; if (x < 2) return y; return x; } int main() { calc w; int a = w.sq(2); print(f(@a), a); }",
    // a name in a block, and variables that come to stand where others were
    "int main() { calc w; int a = w.sq(2); { int a = 1; print(a); a = 2; } print(@a); }",
    "int main() { calc w; int a = 1; if (1 < 2) int a = w.sq(2); print(a); }",
    "int main() { calc w; { int b = w.sq(2); } int c; print(c); }",
    "int main() { calc w; int i = 0; while (i < 3) { int a; print(a); a = w.sq(i); print(@a); i = i + 1; } }",
];
