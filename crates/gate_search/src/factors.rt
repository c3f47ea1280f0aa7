//! Sums of products with common literals taken out.

use crate::covers::Cube;
use signal_nets::Net;
use std::alloc::AllocError;
use std::collections::BTreeMap;

/// Sums stand in others at most so deep; a deeper one isn't factored.
const DEEPEST: u32 = 100;

/// The literal of a sum of products.
pub(crate) fn sum_literal(net: &mut Net, cubes: Vec<Cube>) -> Result<u32, AllocError> {
    let mut products = Vec::new(net.allocator());
    for cube in cubes {
        products.push(cube.literals)?;
    }
    factored(net, products, DEEPEST)
}

fn factored(net: &mut Net, products: Vec<Vec<u32>>, deepest: u32) -> Result<u32, AllocError> {
    let common = most_frequent(net, &products)?;
    let (Some(common), true) = (common, deepest > 0) else {
        return plain_sum(net, &products);
    };
    let (with, without) = divided(net, products, common)?;
    let rest = factored(net, with, deepest - 1)?;
    let one = net.and(common, rest)?;
    let other = factored(net, without, deepest - 1)?;
    net.or(one, other)
}

/// The products that have a literal, without it, and the others.
fn divided(
    net: &Net,
    products: Vec<Vec<u32>>,
    common: u32,
) -> Result<(Vec<Vec<u32>>, Vec<Vec<u32>>), AllocError> {
    let mut with = Vec::new(net.allocator());
    let mut without = Vec::new(net.allocator());
    for product in products {
        if product.contains(&common) {
            with.push(other_literals(net, &product, common)?)?;
        } else {
            without.push(product)?;
        }
    }
    Ok((with, without))
}

fn plain_sum(net: &mut Net, products: &[Vec<u32>]) -> Result<u32, AllocError> {
    let mut sum = 0;
    for product in products {
        let mut all = 1;
        for literal in product {
            all = net.and(all, *literal)?;
        }
        sum = net.or(sum, all)?;
    }
    Ok(sum)
}

fn other_literals(net: &Net, product: &[u32], common: u32) -> Result<Vec<u32>, AllocError> {
    let mut others = Vec::new(net.allocator());
    for literal in product {
        if *literal != common {
            others.push(*literal)?;
        }
    }
    Ok(others)
}

/// The least of the literals that stand in most products; None where all stand in one.
fn most_frequent(net: &Net, products: &[Vec<u32>]) -> Result<Option<u32>, AllocError> {
    let mut counts: BTreeMap<u32, u32> = BTreeMap::new(net.allocator());
    for product in products {
        for literal in product {
            let count = counts.entry(*literal)?.or_insert(0);
            *count = count.saturating_add(1);
        }
    }
    let mut best = None;
    let mut most = 1u32;
    for (literal, count) in &counts {
        if *count > most {
            most = *count;
            best = Some(*literal);
        }
    }
    Ok(best)
}
