//! What holds of every history of a bucket. The functions do nothing: their contracts are the laws.
ghost use Rattle.std.specs.Prelude.{◌≡◌, List, ◌++◌};
ghost use Rattle.retry_quota.specs.Book.{Book, IsBalanced, opening, terms_in};
ghost use Rattle.retry_quota.specs.declared.state.BucketTerms.{BucketTerms};
ghost use Rattle.retry_quota.specs.History.{Entry, IsLegal, end_of};

/// What is available, held and forgotten is together the capacity and what was granted, in a bucket
/// that nobody has used and after any steps.
pub fn sums_balance()
    ensures opened { (terms : BucketTerms) → IsBalanced (opening terms) }
    ensures kept { (b : Book) (entries : List Entry) → IsBalanced b →
        IsBalanced (end_of b entries) }
{}

/// No step changes the capacity, the costs, the reward or the rate.
pub fn terms_stay()
    ensures { (b : Book) (entries : List Entry) → terms_in (end_of b entries) ≡ terms_in b }
{}

/// A history that is legal goes on with one that is legal where it ends, and the books join.
pub fn histories_join()
    ensures joined { (b : Book) (xs ys : List Entry) → IsLegal b xs → IsLegal (end_of b xs) ys →
        IsLegal b (xs ++ ys) }
    ensures begun { (b : Book) (xs ys : List Entry) → IsLegal b (xs ++ ys) → IsLegal b xs
        × IsLegal (end_of b xs) ys }
    ensures ends { (b : Book) (xs ys : List Entry) → end_of b (xs ++ ys) ≡ end_of (end_of b xs) ys }
{}
