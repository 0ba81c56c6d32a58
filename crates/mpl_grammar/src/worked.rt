//! Sources, and where each has its first fault.
ghost use Rattle.std.specs.Prelude.{◌≡◌, ◌++◌, codes, replicate, None, Some};
ghost use Rattle.mpl_grammar.specs.declared.faults.Fault.TheVariants.{Syntax, TooDeep};
ghost use Rattle.mpl_grammar.specs.Internal.Sources.{first_fault};

/// A token that may not come, and an end that comes too early.
pub fn faults_have_their_places()
    ensures empty { first_fault (codes "") ≡ None }
    ensures no_class { first_fault (codes "regular mentat cl") ≡ Some (Syntax 15) }
    ensures cut { first_fault (codes "int main() { print(1)") ≡ Some (Syntax 21) }
    ensures no_semicolon { first_fault (codes "int main() { print(1) }") ≡ Some (Syntax 22) }
    ensures two_minus { first_fault (codes "int main() { print(a--b); }") ≡ Some (Syntax 20) }
    ensures trailing_comma { first_fault (codes "int main() { f.g(1, ); }") ≡ Some (Syntax 20) }
    ensures field_of_field { first_fault (codes "int f() { x.y.z = 1; }") ≡ Some (Syntax 16) }
    ensures index_twice { first_fault (codes "int f() { a[1][2] = 1; }") ≡ Some (Syntax 14) }
    ensures call_in_operator { first_fault (codes "int f() { x = a.f() + 1; }") ≡ Some (Syntax 20) }
    ensures creates_itself { first_fault (codes "int f() { self.create(); }") ≡ Some (Syntax 15) }
    ensures else_alone { first_fault (codes "int f() { if (a) ; else ; else ; }") ≡ Some (Syntax 26) }
{}

/// Forms that stand beside each other.
pub fn forms_are_taken()
    ensures nearest_if { first_fault (codes "int f() { if (a) if (b) ; else while (c) ; else ; }") ≡ None }
    ensures loops { first_fault (codes "int f() { for (;a;) for (int i = 0; i < n; i = i + 1) x.y[i] = !a; }") ≡ None }
    ensures statements { first_fault (codes "int f() { cell c; c.create(); self.put(c.get(), -1 * (a[0] + g(1, 2))); return; }") ≡ None }
    ensures a_class { first_fault (codes "persistent mentat class c { int n, m[3]; public: void f(int x, c y) {} int g() { rtf(n); } select { priority 1 : guard (x) accept f; } };") ≡ None }
    ensures a_struct { first_fault (codes "struct s { int a, b[2]; bool c; };") ≡ None }
{}

/// 62 parentheses in a `print` are not too deep, and the 63rd is.
pub fn depth_has_its_place()
    ensures light { first_fault (codes "int main() { print(" ++ replicate 62 40 ++ codes "1" ++ replicate 62 41 ++ codes "); }") ≡ None }
    ensures heavy { first_fault (codes "int main() { print(" ++ replicate 63 40 ++ codes "1" ++ replicate 63 41 ++ codes "); }") ≡ Some (TooDeep 81) }
{}
