// The S-box on eight blocks at once: the circuit of Boyar and Peralta, with their names for its
// signals, in five parts.
#![tactic(auto, unfolding(crate::specs::Circuit::outputs_of))]

ghost use Rattle.std.specs.Prelude.{◌≡◌, ◌<◌, ◌∷◌, ◌++◌, ℕ, List, replicate};
ghost use Rattle.aes_core.specs.Aes.{sub_bytes};
ghost use Rattle.aes_lanes.specs.Circuit.{lanes, outputs_of};
ghost use Rattle.aes_lanes.specs.SBox.{sums, norm, inverse, products, substitutes};
ghost use Rattle.aes_lanes.specs.Signals.{sums_in, norm_in, inverse_in, products_in};
ghost use Rattle.aes_lanes.specs.Sliced.{registers_of, HasBlock};

use crate::registers::Registers;
use std::simd::prelude::*;

// The sums of input bits that the products need.
#[derive(Clone, Copy)]
struct Sums {
    x7: u8x16,
    y1: u8x16,
    y2: u8x16,
    y3: u8x16,
    y4: u8x16,
    y5: u8x16,
    y6: u8x16,
    y7: u8x16,
    y8: u8x16,
    y9: u8x16,
    y10: u8x16,
    y11: u8x16,
    y12: u8x16,
    y13: u8x16,
    y14: u8x16,
    y15: u8x16,
    y16: u8x16,
    y17: u8x16,
    y18: u8x16,
    y19: u8x16,
    y20: u8x16,
    y21: u8x16,
}

// The norm of each byte, in the field of 2 ^ 4 elements.
#[derive(Clone, Copy)]
struct Norm {
    t21: u8x16,
    t22: u8x16,
    t23: u8x16,
    t24: u8x16,
}

// The inverse of the norm, and the sums of its bits that the products need.
#[derive(Clone, Copy)]
struct Inverse {
    t29: u8x16,
    t33: u8x16,
    t37: u8x16,
    t40: u8x16,
    t41: u8x16,
    t42: u8x16,
    t43: u8x16,
    t44: u8x16,
    t45: u8x16,
}

// The inverse times the sums of input bits.
#[derive(Clone, Copy)]
struct Products {
    z0: u8x16,
    z1: u8x16,
    z2: u8x16,
    z3: u8x16,
    z4: u8x16,
    z5: u8x16,
    z6: u8x16,
    z7: u8x16,
    z8: u8x16,
    z9: u8x16,
    z10: u8x16,
    z11: u8x16,
    z12: u8x16,
    z13: u8x16,
    z14: u8x16,
    z15: u8x16,
    z16: u8x16,
    z17: u8x16,
}

#[inline(always)]
fn sums_of(q: Registers) -> Sums
    ensures { sums_in result ≡ outputs_of lanes sums (registers_of q) }
{
    let y14 = q.bit4 ^ q.bit2;
    let y13 = q.bit7 ^ q.bit1;
    let y9 = q.bit7 ^ q.bit4;
    let y8 = q.bit7 ^ q.bit2;
    let t0 = q.bit6 ^ q.bit5;
    let y1 = t0 ^ q.bit0;
    let y12 = y13 ^ y14;
    let y5 = y1 ^ q.bit1;
    let t1 = q.bit3 ^ y12;
    let y15 = t1 ^ q.bit2;
    let y20 = t1 ^ q.bit6;
    let y10 = y15 ^ t0;
    let y11 = y20 ^ y9;
    let y16 = t0 ^ y11;
    Sums {
        x7: q.bit0,
        y1,
        y2: y1 ^ q.bit7,
        y3: y5 ^ y8,
        y4: y1 ^ q.bit4,
        y5,
        y6: y15 ^ q.bit0,
        y7: q.bit0 ^ y11,
        y8,
        y9,
        y10,
        y11,
        y12,
        y13,
        y14,
        y15,
        y16,
        y17: y10 ^ y11,
        y18: q.bit7 ^ y16,
        y19: y10 ^ y8,
        y20,
        y21: y13 ^ y16,
    }
}

#[inline(always)]
fn norm_of(sums: Sums) -> Norm
    ensures { norm_in result ≡ outputs_of lanes norm (sums_in sums) }
{
    let t2 = sums.y12 & sums.y15;
    let t3 = sums.y3 & sums.y6;
    let t4 = t3 ^ t2;
    let t5 = sums.y4 & sums.x7;
    let t6 = t5 ^ t2;
    let t7 = sums.y13 & sums.y16;
    let t8 = sums.y5 & sums.y1;
    let t9 = t8 ^ t7;
    let t10 = sums.y2 & sums.y7;
    let t11 = t10 ^ t7;
    let t12 = sums.y9 & sums.y11;
    let t13 = sums.y14 & sums.y17;
    let t14 = t13 ^ t12;
    let t15 = sums.y8 & sums.y10;
    let t16 = t15 ^ t12;
    let t17 = t4 ^ t14;
    let t18 = t6 ^ t16;
    let t19 = t9 ^ t14;
    let t20 = t11 ^ t16;
    let t21 = t17 ^ sums.y20;
    let t22 = t18 ^ sums.y19;
    let t23 = t19 ^ sums.y21;
    let t24 = t20 ^ sums.y18;
    Norm { t21, t22, t23, t24 }
}

#[inline(always)]
fn inverse_of(norm: Norm) -> Inverse
    ensures { inverse_in result ≡ outputs_of lanes inverse (norm_in norm) }
{
    let Norm { t21, t22, t23, t24 } = norm;
    let t25 = t21 ^ t22;
    let t26 = t21 & t23;
    let t27 = t24 ^ t26;
    let t28 = t25 & t27;
    let t29 = t28 ^ t22;
    let t30 = t23 ^ t24;
    let t31 = t22 ^ t26;
    let t32 = t31 & t30;
    let t33 = t32 ^ t24;
    let t34 = t23 ^ t33;
    let t35 = t27 ^ t33;
    let t36 = t24 & t35;
    let t37 = t36 ^ t34;
    let t38 = t27 ^ t36;
    let t39 = t29 & t38;
    let t40 = t25 ^ t39;
    let t41 = t40 ^ t37;
    let t42 = t29 ^ t33;
    let t43 = t29 ^ t40;
    let t44 = t33 ^ t37;
    let t45 = t42 ^ t41;
    Inverse {
        t29,
        t33,
        t37,
        t40,
        t41,
        t42,
        t43,
        t44,
        t45,
    }
}

#[inline(always)]
fn products_of(inverse: Inverse, sums: Sums) -> Products
    ensures { products_in result ≡ outputs_of lanes products (inverse_in inverse ++ sums_in sums) }
{
    Products {
        z0: inverse.t44 & sums.y15,
        z1: inverse.t37 & sums.y6,
        z2: inverse.t33 & sums.x7,
        z3: inverse.t43 & sums.y16,
        z4: inverse.t40 & sums.y1,
        z5: inverse.t29 & sums.y7,
        z6: inverse.t42 & sums.y11,
        z7: inverse.t45 & sums.y17,
        z8: inverse.t41 & sums.y10,
        z9: inverse.t44 & sums.y12,
        z10: inverse.t37 & sums.y3,
        z11: inverse.t33 & sums.y4,
        z12: inverse.t43 & sums.y13,
        z13: inverse.t40 & sums.y5,
        z14: inverse.t29 & sums.y2,
        z15: inverse.t42 & sums.y9,
        z16: inverse.t45 & sums.y14,
        z17: inverse.t41 & sums.y8,
    }
}

#[inline(always)]
fn substitutes_of(products: Products) -> Registers
    ensures { registers_of result ≡ outputs_of lanes substitutes
        (replicate 16 255 ∷ products_in products) }
{
    let ones = u8x16::splat(0xff);
    let t46 = products.z15 ^ products.z16;
    let t47 = products.z10 ^ products.z11;
    let t48 = products.z5 ^ products.z13;
    let t49 = products.z9 ^ products.z10;
    let t50 = products.z2 ^ products.z12;
    let t51 = products.z2 ^ products.z5;
    let t52 = products.z7 ^ products.z8;
    let t53 = products.z0 ^ products.z3;
    let t54 = products.z6 ^ products.z7;
    let t55 = products.z16 ^ products.z17;
    let t56 = products.z12 ^ t48;
    let t57 = t50 ^ t53;
    let t58 = products.z4 ^ t46;
    let t59 = products.z3 ^ t54;
    let t60 = t46 ^ t57;
    let t61 = products.z14 ^ t57;
    let t62 = t52 ^ t58;
    let t63 = t49 ^ t58;
    let t64 = products.z4 ^ t59;
    let t65 = t61 ^ t62;
    let t66 = products.z1 ^ t63;
    let t67 = t64 ^ t65;
    let s3 = t53 ^ t66;
    Registers {
        bit0: t48 ^ (t60 ^ ones),
        bit1: t56 ^ (t62 ^ ones),
        bit2: t47 ^ t65,
        bit3: t51 ^ t66,
        bit4: s3,
        bit5: t55 ^ (t67 ^ ones),
        bit6: t64 ^ (s3 ^ ones),
        bit7: t59 ^ t63,
    }
}

/// Each byte of each block replaced by its substitute.
#[inline(always)]
pub fn substituted(q: Registers) -> Registers
    ensures { (place : ℕ) (block : List ℕ) → place < 8 → HasBlock q place block
        → HasBlock result place (sub_bytes block) }
{
    let sums = sums_of(q);
    substitutes_of(products_of(inverse_of(norm_of(sums)), sums))
}
