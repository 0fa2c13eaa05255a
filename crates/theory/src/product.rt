ghost use Rattle.theory.specs.ProductMeaning.{product_meaning};
ghost use Rattle.theory.specs.ProductKept.{product_kept};

use crate::fault::PatternFault;
use crate::indices::Indices;
use crate::theory::Theory;

/// Two patterns, two regions or two cells by value; over two theories it is a theory itself.
#[derive(Clone, Copy, Debug, Drop, PartialEq, Eq)]
pub struct Product<L, R> {
    pub left: L,
    pub right: R,
}

impl<L: Theory, R: Theory> Theory for Product<L, R> {
    type Pattern = Product<L::Pattern, R::Pattern>;

    type Region = Product<L::Region, R::Region>;

    type Cell = Product<L::Cell, R::Cell>;

    ghost meaning = { product_meaning L.Theory.meaning R.Theory.meaning };

    ghost kept = { product_kept L.Theory.meaning R.Theory.meaning L.Theory.kept R.Theory.kept };

    fn read(
        file: &[u8],
        place: usize,
        depth: u8,
    ) -> Result<(Product<L::Pattern, R::Pattern>, usize), PatternFault> {
        let (left, middle) = L::read(file, place, depth)?;
        let (right, end) = R::read(file, middle, depth)?;
        Ok((Product { left, right }, end))
    }

    fn fill(
        pattern: &Product<L::Pattern, R::Pattern>,
        indices: &Indices,
    ) -> Product<L::Region, R::Region> {
        Product {
            left: L::fill(&pattern.left, indices),
            right: R::fill(&pattern.right, indices),
        }
    }

    fn same(a: &Product<L::Cell, R::Cell>, b: &Product<L::Cell, R::Cell>) -> bool {
        L::same(&a.left, &b.left) && R::same(&a.right, &b.right)
    }

    fn single(pattern: &Product<L::Pattern, R::Pattern>) -> bool {
        L::single(&pattern.left) && R::single(&pattern.right)
    }

    fn only(
        pattern: &Product<L::Pattern, R::Pattern>,
        indices: &Indices,
    ) -> Product<L::Cell, R::Cell> {
        Product {
            left: L::only(&pattern.left, indices),
            right: R::only(&pattern.right, indices),
        }
    }

    fn has(region: &Product<L::Region, R::Region>, cell: &Product<L::Cell, R::Cell>) -> bool {
        L::has(&region.left, &cell.left) && R::has(&region.right, &cell.right)
    }

    fn within(a: &Product<L::Region, R::Region>, b: &Product<L::Region, R::Region>) -> bool {
        L::within(&a.left, &b.left) && R::within(&a.right, &b.right)
    }

    fn share(
        a: &Product<L::Region, R::Region>,
        b: &Product<L::Region, R::Region>,
    ) -> Option<Product<L::Cell, R::Cell>> {
        let left = L::share(&a.left, &b.left)?;
        let right = R::share(&a.right, &b.right)?;
        Some(Product { left, right })
    }
}
