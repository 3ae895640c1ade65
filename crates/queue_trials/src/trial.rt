use super::plain::Plain;
use super::tally::{Call, Tally};
use kinds::kind::Kind;
use queues::entry::Entry;
use queues::queue::{OverList, Queue};

// Whether a queue answers every question as the plain list does.
fn alike<K: Kind, Q: Queue<K>>(queue: &Q, plain: &Plain<'_, K::Cost>, number: u32) -> bool
where
    K::Cost: PartialEq,
    requires { Q.kept queue.now }
{
    queue.size() == plain.size()
        && queue.waiting() == plain.waiting()
        && queue.takes() == plain.takes()
        && queue.floor() == plain.floor()
        && queue.cost(number) == plain.cost(number)
}

// The next of a row of numbers that look random.
fn next(seed: u32) -> u32 {
    seed.wrapping_mul(1_664_525).wrapping_add(1_013_904_223)
}

// A number to offer: mostly near the size, now and then far above it.
fn number_from(seed: u32, size: usize) -> u32 {
    let draw = seed >> 8;
    if draw % 16 == 0 {
        return 4_294_967_290 + draw % 5;
    }
    match u32::try_from(size) {
        Ok(size) if size < 1_000_000 => draw % (size + size / 2 + 3),
        _ => draw,
    }
}

// Whether a step between two clears is a take: few at first, so that the queues fill, more later.
fn is_take(choice: u32) -> bool {
    if choice < 600 {
        choice % 6 == 5
    } else {
        choice % 5 < 3
    }
}

// Makes one call on both queues and on the list. None, if they answered differently. The calls answer with different
// types, so the choice is an `if`: no one closure could stand for all of them. What is handed in meets only here and in
// `trial`, and is of three types that lend it: a struct would be taken apart at once.
fn one_step<K: Kind, A: Queue<K>, B: Queue<K>>(
    a: &mut A,
    b: &mut B,
    plain: &mut Plain<'_, K::Cost>,
    number: u32,
    cost: K::Cost,
    choice: u32,
) -> Option<Call<K::Cost>>
where
    K::Cost: PartialEq,
    requires { (A.Queue.kept a.old) × (B.Queue.kept b.old) }
    ensures a_kept { A.Queue.kept a.new }
    ensures b_kept { B.Queue.kept b.new }
{
    if choice == 0 {
        a.clear();
        b.clear();
        plain.clear();
        return Some(Call::Clear);
    }
    if is_take(choice) {
        let from_a = a.take();
        let from_b = b.take();
        let from_list = plain.take::<K>();
        let same = from_a == from_list && from_b == from_list;
        return same.then_some(Call::Take(from_list));
    }
    let to_a = a.offer(number, cost);
    let to_b = b.offer(number, cost);
    let to_list = plain.offer::<K>(number, cost);
    let same = to_a == to_list && to_b == to_list;
    same.then_some(Call::Offer(to_list))
}

// Makes the steps on a queue of each sort, both over lent lists, and on the list.
pub fn trial<'a, K: Kind, A: OverList<'a, K> + Drop, B: OverList<'a, K> + Drop>(
    kind: &K,
    first: &'a mut [Entry<K::Cost>],
    second: &'a mut [Entry<K::Cost>],
    list: &mut [Option<(u32, K::Cost)>],
    steps: u32,
) -> Tally
where
    K::Cost: PartialEq,
{
    let size = list.len();
    let mut a = A::over(first);
    let mut b = B::over(second);
    let mut plain = Plain::new(list);
    let mut seed = 7;
    let mut tally = Tally::default();
    for step in 0..steps {
        seed = next(seed);
        let cost = kind.start(step % 997 / 8 + (seed >> 16) % 60);
        seed = next(seed);
        let number = number_from(seed, size);
        let call = one_step::<K, A, B>(&mut a, &mut b, &mut plain, number, cost, step % 997);
        let same = alike::<K, A>(&a, &plain, number) && alike::<K, B>(&b, &plain, number);
        tally.add(if same { call } else { None });
    }
    tally
}
