// Closing the gaps of potentials: whatever lies far apart comes together, in the same order. Curves with slopes within a
// limit see no difference where each gap becomes at most this limit.
ghost use Rattle.std.specs.Prelude.{◌≡◌, ℕ, ◌+◌, ◌*◌, ◌<◌, ◌≤◌, ◌^◌, pos, ◌+ℤ◌, ◌-ℤ◌, ◌*ℤ◌, ◌<ℤ◌, ◌≤ℤ◌, length, Contains, IsSorted};
ghost use Rattle.std.specs.Int.{int_min};
ghost use Rattle.std.specs.Ordering.{int_cmp};
ghost use Rattle.theory.specs.Limits.{IsWithin};
ghost use Rattle.theory.specs.Network.{«at»};
ghost use Rattle.kilter_solver.specs.Gaps.{AreClosed, AreHeights, ArePlaced, HasHeight};

/// Closes the gaps between the first `nodes` words, the potentials, to at most `most` each. What the words behind them
/// hold afterwards is left open.
pub fn close_gaps(words: &mut [i64], nodes: usize, most: i64)
    requires some_node { 1 ≤ nodes }
    requires room { length words.old ≡ 3 * nodes }
    requires within { (i : ℕ) → i < nodes → IsWithin (2 ^ 60) («at» words.old i) }
    requires some { pos 1 ≤ℤ most }
    requires near { (pos nodes *ℤ most) <ℤ pos (2 ^ 60) }
    ensures { AreClosed nodes most («at» words.old) («at» words.new) }
{
    let (potentials, scratch) = words.split_at_mut(nodes);
    let (values, heights) = scratch.split_at_mut(nodes);
    values.copy_from_slice(potentials);
    values.sort_unstable();
    pile_up(values, heights, most);
    replace(potentials, values, heights);
}

/// Writes the heights of the values.
fn pile_up(values: &[i64], heights: &mut [i64], most: i64)
    requires some_value { 1 ≤ length values.now }
    requires one_each { length heights.old ≡ length values.now }
    requires sorted { IsSorted int_cmp values.now }
    requires within { (p : ℕ) → p < length values.now → IsWithin (2 ^ 60) («at» values.now p) }
    requires some { pos 1 ≤ℤ most }
    requires near { (pos (length values.now) *ℤ most) <ℤ pos (2 ^ 60) }
    ensures { AreHeights (length values.now) most values.now heights.new }
{
    heights[0] = 0;
    for p in 1..values.len() {
        let gap = values[p] - values[p - 1];
        heights[p] = heights[p - 1] + gap.min(most);
    }
}

/// Each word becomes the height of its value, less that of the first.
fn replace(words: &mut [i64], values: &[i64], heights: &[i64])
    requires some_word { 1 ≤ length words.old }
    requires one_each { length heights.now ≡ length values.now }
    requires sorted { IsSorted int_cmp values.now }
    requires there { (i : ℕ) → i < length words.old → Contains values.now («at» words.old i) }
    requires within { (p : ℕ) → IsWithin (2 ^ 60) («at» heights.now p) }
    ensures { ArePlaced (length words.old) values.now heights.now («at» words.old) («at» words.new) }
{
    let ground = height_of(words[0], values, heights);
    for word in words.iter_mut() {
        *word = height_of(*word, values, heights) - ground;
    }
}

/// The height of a value.
fn height_of(value: i64, values: &[i64], heights: &[i64]) -> i64
    requires one_each { length heights.now ≡ length values.now }
    requires sorted { IsSorted int_cmp values.now }
    requires there { Contains values.now value }
    ensures { HasHeight values.now heights.now value result }
{
    match values.binary_search(&value) {
        Ok(place) => heights[place],
        Err(_) => unreachable!(),
    }
}

#[cfg(test)]
mod tests {
    use super::close_gaps;
    use std::test::Fail;

    /// Three potentials, with gaps of at most 10 between them.
    fn closed(first: i32, second: i32, third: i32) -> [i64; 3] {
        let mut words = [first as i64, second as i64, third as i64, 0, 0, 0, 0, 0, 0];
        close_gaps(&mut words, 3, 10);
        [words[0], words[1], words[2]]
    }

    #[test]
    fn closes_gaps(rt: HostRuntime) -> Result<(), Fail> {
        assert_eq!(rt; closed(0, 100, -7), [0, 10, -7]);
        // Ties stay, and node 0 has potential 0.
        assert_eq!(rt; closed(5, 5, -40), [0, 0, -10]);
        assert_eq!(rt; closed(30, -2, 30), [0, -10, 0]);
        Ok(())
    }
}
