// Joins and try-joins of three to five unlike futures. Each is the form of two, nested to the left, so it polls and gives
// up its parts in the written order.
ghost use Rattle.std.specs.Prelude.{◌≡◌};

use crate::joins::Join2;
use crate::maybe::MaybeDone;
use crate::try_joins::TryJoin2;

/// A join of three unlike futures.
pub type Join3<A, B, D, X, Y, Z> = Join2<Join2<A, B, X, Y>, D, (X, Y), Z>;

/// A join of four unlike futures.
pub type Join4<A, B, D, E, X, Y, Z, U> = Join2<Join3<A, B, D, X, Y, Z>, E, ((X, Y), Z), U>;

/// A join of five unlike futures.
pub type Join5<A, B, D, E, F, X, Y, Z, U, V> = Join2<
    Join4<A, B, D, E, X, Y, Z, U>,
    F,
    (((X, Y), Z), U),
    V,
>;

/// Returns the join of three unlike futures that are not spent. Each poll polls every unfinished one once, in the
/// written order.
pub fn join3<A, B, D, X, Y, Z>(a: A, b: B, d: D) -> Join3<A, B, D, X, Y, Z>
    ensures { result ≡ record { a = MaybeDone.Future (record { a = MaybeDone.Future a; b = MaybeDone.Future b }); b = MaybeDone.Future d } }
{
    Join2::new(Join2::new(a, b), d)
}

/// Returns the join of four unlike futures that are not spent. Each poll polls every unfinished one once, in the
/// written order.
pub fn join4<A, B, D, E, X, Y, Z, U>(a: A, b: B, d: D, e: E) -> Join4<A, B, D, E, X, Y, Z, U>
    ensures { result ≡ record { a = MaybeDone.Future (record { a = MaybeDone.Future (record { a = MaybeDone.Future a; b = MaybeDone.Future b }); b = MaybeDone.Future d }); b = MaybeDone.Future e } }
{
    Join2::new(join3(a, b, d), e)
}

/// Returns the join of five unlike futures that are not spent. Each poll polls every unfinished one once, in the
/// written order.
pub fn join5<A, B, D, E, F, X, Y, Z, U, V>(
    a: A,
    b: B,
    d: D,
    e: E,
    f: F,
) -> Join5<A, B, D, E, F, X, Y, Z, U, V>
    ensures { result ≡ record {
      a = MaybeDone.Future
          (record {
            a = MaybeDone.Future (record {
              a = MaybeDone.Future (record { a = MaybeDone.Future a; b = MaybeDone.Future b });
              b = MaybeDone.Future d;
            });
            b = MaybeDone.Future e;
          });
      b = MaybeDone.Future f;
    } }
{
    Join2::new(join4(a, b, d, e), f)
}

/// A join of three unlike futures that may fail with one type of error.
pub type TryJoin3<A, B, D, X, Y, Z, E> = TryJoin2<TryJoin2<A, B, X, Y, E>, D, (X, Y), Z, E>;

/// A join of four unlike futures that may fail with one type of error.
pub type TryJoin4<A, B, D, F, X, Y, Z, U, E> = TryJoin2<
    TryJoin3<A, B, D, X, Y, Z, E>,
    F,
    ((X, Y), Z),
    U,
    E,
>;

/// A join of five unlike futures that may fail with one type of error.
pub type TryJoin5<A, B, D, F, G, X, Y, Z, U, V, E> = TryJoin2<
    TryJoin4<A, B, D, F, X, Y, Z, U, E>,
    G,
    (((X, Y), Z), U),
    V,
    E,
>;

/// Returns the join of three unlike futures that are not spent. Each poll polls every unfinished one once, in the
/// written order, up to the first that fails.
pub fn try_join3<A, B, D, X, Y, Z, E>(a: A, b: B, d: D) -> TryJoin3<A, B, D, X, Y, Z, E>
    ensures { result ≡ record { a = MaybeDone.Future (record { a = MaybeDone.Future a; b = MaybeDone.Future b }); b = MaybeDone.Future d } }
{
    TryJoin2::new(TryJoin2::new(a, b), d)
}

/// Returns the join of four unlike futures that are not spent. Each poll polls every unfinished one once, in the
/// written order, up to the first that fails.
pub fn try_join4<A, B, D, F, X, Y, Z, U, E>(
    a: A,
    b: B,
    d: D,
    f: F,
) -> TryJoin4<A, B, D, F, X, Y, Z, U, E>
    ensures { result ≡ record { a = MaybeDone.Future (record { a = MaybeDone.Future (record { a = MaybeDone.Future a; b = MaybeDone.Future b }); b = MaybeDone.Future d }); b = MaybeDone.Future f } }
{
    TryJoin2::new(try_join3(a, b, d), f)
}

/// Returns the join of five unlike futures that are not spent. Each poll polls every unfinished one once, in the
/// written order, up to the first that fails.
pub fn try_join5<A, B, D, F, G, X, Y, Z, U, V, E>(
    a: A,
    b: B,
    d: D,
    f: F,
    g: G,
) -> TryJoin5<A, B, D, F, G, X, Y, Z, U, V, E>
    ensures { result ≡ record {
      a = MaybeDone.Future
          (record {
            a = MaybeDone.Future (record {
              a = MaybeDone.Future (record { a = MaybeDone.Future a; b = MaybeDone.Future b });
              b = MaybeDone.Future d;
            });
            b = MaybeDone.Future f;
          });
      b = MaybeDone.Future g;
    } }
{
    TryJoin2::new(try_join4(a, b, d, f), g)
}
