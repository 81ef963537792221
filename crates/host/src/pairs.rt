// Lists by pairs.
ghost use Rattle.std.specs.Prelude.{Bool, true, false, ◌≡◌};
ghost use Rattle.std.specs.Fn.{FnReturnsAt, FnReturnsAtPair};
ghost use Rattle.lists.specs.Tests.{apart};

// Whether no two are related, where an item that is `alone` is related to none: such a one is passed by.
pub fn apart_but<T, A: Fn(&T) -> bool, F: Fn(&T, &T) -> bool>(
    items: &[T],
    alone: A,
    related: F,
) -> bool
    requires alone { A.IsAlwaysCallable alone }
    requires related { F.IsAlwaysCallable related }
    ensures { (a : T → Bool) (e : T → T → Bool) → ((x : T) (b : Bool) → FnReturnsAt A.Fn alone x b → b ≡ a x)
        → ((x y : T) (b : Bool) → FnReturnsAtPair F.Fn related x y b → b ≡ e x y)
        → ((x y : T) → a x ≡ true → e x y ≡ false) → result ≡ apart e items.now }
{
    let mut rest = items;
    while let Some((x, others)) = rest.split_first() {
        if !alone(x) && others.iter().any(|y| related(x, y)) {
            return false;
        }
        rest = others;
    }
    true
}

// Whether no two are related.
pub fn apart<T, F: Fn(&T, &T) -> bool>(items: &[T], related: F) -> bool
    requires { F.IsAlwaysCallable related }
    ensures { (e : T → T → Bool) → ((x y : T) (b : Bool) → FnReturnsAtPair F.Fn related x y b → b ≡ e x y) → result ≡ apart e items.now }
{
    apart_but(items, |_x| false, related)
}
