//! Sources, and whether the parser takes them.
ghost use Rattle.std.specs.Prelude.{◌≡◌, codes, false, true};
ghost use Rattle.mpl_trees.specs.Sources.{is_taken};

/// Forms that stand beside each other.
pub fn forms_are_taken()
    ensures empty { is_taken (codes "") ≡ true }
    ensures levels { is_taken (codes "int f() { x = a + b * c - d / 2 < 3 == !e && -g % 2 > 1 || h; }") ≡ true }
    ensures nested { is_taken (codes "int f() { return (a + (b - c) * d[e + 1]) * g(h * 2, i.j, k.l[m]); }") ≡ true }
    ensures nearest_if { is_taken (codes "int f() { if (a) if (b) ; else while (c) ; else ; }") ≡ true }
    ensures loops { is_taken (codes "int f() { for (;a;) for (int i = 0; i < n; i = i + 1) x.y[i] = !a; }") ≡ true }
    ensures statements { is_taken (codes "int f() { cell c; c.create(); self.put(c.get(), -1 * (a[0] + g(1, 2))); return; }") ≡ true }
    ensures a_class { is_taken (codes "persistent mentat class c { int n, m[3]; public: void f(int x, c y) {} int g() { rtf(n); } select { priority 1 : guard (x) accept f; } };") ≡ true }
    ensures a_struct { is_taken (codes "struct s { int a, b[2]; bool c; };") ≡ true }
{}

/// Sources of no program.
pub fn others_are_not()
    ensures cut { is_taken (codes "int main() { print(1)") ≡ false }
    ensures two_minus { is_taken (codes "int main() { print(a--b); }") ≡ false }
    ensures else_alone { is_taken (codes "int f() { if (a) ; else ; else ; }") ≡ false }
    ensures field_of_field { is_taken (codes "int f() { x.y.z = 1; }") ≡ false }
{}
