/// A value of either of two types. An enum of this crate's own, since the kit's `either::Either` can be
/// given an impl of `PatternKind` only in the trait's crate, which would then stand on it.
#[derive(Drop)]
pub enum Either<A, B> {
    Left(A),
    Right(B),
}
