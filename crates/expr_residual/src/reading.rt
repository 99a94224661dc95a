ghost use Rattle.std.specs.Prelude.{◌≡◌, ℕ, ◌<◌, ◌==◌, ◌||◌, false, nat_le, length, get_or};
ghost use Rattle.std.specs.List.{list_any};
ghost use Rattle.design_model.specs.Reading.{reads_part};
ghost use Rattle.expr_residual.specs.Moved.{reads_own, reads_wire};

use design_model::Expr;

/// Whether the expression reads a required port of the part.
#[cycle(reads_part)]
pub fn reads_part(expr: &Expr, part: u32) -> bool
    ensures { result ≡ reads_part expr.now part }
{
    match expr {
        Expr::Own(_) | Expr::Constant(_) => false,
        Expr::Inner(owner, _) => *owner == part,
        Expr::Scale(_, a) => reads_part(a.get(), part),
        Expr::Sum(a, b) | Expr::Product(a, b) | Expr::Greatest(a, b) | Expr::Lesser(a, b) => {
            reads_part(a.get(), part) || reads_part(b.get(), part)
        }
        Expr::Tuple(parts) => some_reads_part(parts.items(), part),
    }
}

#[cycle(reads_part)]
fn some_reads_part(exprs: &[Expr], part: u32) -> bool
    ensures { result ≡ list_any (λ e. reads_part e part) exprs.now }
{
    for expr in exprs {
        if reads_part(expr, part) {
            return true;
        }
    }
    false
}

/// Whether the expression reads an own port whose number is `start` or more.
#[cycle(reads_from)]
pub fn reads_from(expr: &Expr, start: u32) -> bool
    ensures { result ≡ reads_own (nat_le start) expr.now }
{
    match expr {
        Expr::Own(number) => start <= *number,
        Expr::Inner(_, _) | Expr::Constant(_) => false,
        Expr::Scale(_, a) => reads_from(a.get(), start),
        Expr::Sum(a, b) | Expr::Product(a, b) | Expr::Greatest(a, b) | Expr::Lesser(a, b) => {
            reads_from(a.get(), start) || reads_from(b.get(), start)
        }
        Expr::Tuple(parts) => some_reads_from(parts.items(), start),
    }
}

#[cycle(reads_from)]
fn some_reads_from(exprs: &[Expr], start: u32) -> bool
    ensures { result ≡ list_any (reads_own (nat_le start)) exprs.now }
{
    for expr in exprs {
        if reads_from(expr, start) {
            return true;
        }
    }
    false
}

/// Marks the own ports that the expression reads, among those that have a mark.
#[cycle(mark_reads)]
pub fn mark_reads(expr: &Expr, marks: &mut [bool])
    ensures size { length marks.new ≡ length marks.old }
    ensures marks { (k : ℕ) → k < length marks.old → get_or marks.new k false ≡ (get_or marks.old k false || reads_wire expr.now k) }
{
    match expr {
        Expr::Own(number) => mark(*number, marks),
        Expr::Inner(_, _) | Expr::Constant(_) => {}
        Expr::Scale(_, a) => mark_reads(a.get(), marks),
        Expr::Sum(a, b) | Expr::Product(a, b) | Expr::Greatest(a, b) | Expr::Lesser(a, b) => {
            mark_reads(a.get(), marks);
            mark_reads(b.get(), marks);
        }
        Expr::Tuple(parts) => mark_each(parts.items(), marks),
    }
}

#[cycle(mark_reads)]
fn mark_each(exprs: &[Expr], marks: &mut [bool])
    ensures size { length marks.new ≡ length marks.old }
    ensures marks { (k : ℕ) → k < length marks.old → get_or marks.new k false ≡ (get_or marks.old k false || list_any (λ e. reads_wire e k) exprs.now) }
{
    for expr in exprs {
        mark_reads(expr, marks);
    }
}

/// Marks the port, if it has a mark.
fn mark(number: u32, marks: &mut [bool])
    ensures size { length marks.new ≡ length marks.old }
    ensures marks { (k : ℕ) → k < length marks.old → get_or marks.new k false ≡ (get_or marks.old k false || number == k) }
{
    let at = number as usize;
    if at < marks.len() {
        marks[at] = true;
    }
}
