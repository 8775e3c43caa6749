// How the segments of a global pool are dealt out over local pools.
// Wishes are summed in 128 bits, since there may be any number of them. The product of a share fits 64.
ghost use Rattle.std.specs.Prelude.{◌≡◌, ◌+◌, ◌<◌, ◌≤◌, ◌^◌, ◌*◌, ℕ, All, EachIndex, sum, length, map, get_or};
ghost use Rattle.local_pool.specs.Shares.{IsWant, needs, wishes, wish, dealt, beyond, share_of};

/// What one local pool is to have, in segments: `need` at any time, and at most `most`.
#[derive(Clone, Copy)]
pub struct Want {
    pub need: u32,
    pub most: u32,
}

// What all of them need together.
fn needs_of(wants: &[Want]) -> u32
    requires { needs wants.now < 2 ^ 32 }
    ensures { result ≡ needs wants.now }
{
    let mut needs = 0;
    for want in wants {
        needs += want.need;
    }
    needs
}

// What all of them wish beyond that.
fn wishes_of(wants: &[Want]) -> u128
    requires { All IsWant wants.now }
    ensures { result ≡ wishes wants.now }
{
    let mut wishes = 0;
    for want in wants {
        wishes += u128::from(want.most - want.need);
    }
    wishes
}

// The limit of one of them, where so much is dealt out over all wishes.
fn limit_of(want: &Want, dealt: u32, wishes: u128) -> u32
    requires { IsWant want.now × (dealt ≤ wishes) }
    ensures { result ≡ want.now.need + beyond dealt wishes (wish want.now) }
{
    if wishes == 0 {
        return want.need;
    }
    let product = u64::from(dealt) * u64::from(want.most - want.need);
    want.need + (u128::from(product) / wishes) as u32
}

/// Sets the limit of each local pool: its need, and of what the needs leave of `total` a share in
/// proportion to what it wishes beyond its need, rounded down. Where nothing is wished it is the need.
pub fn share(wants: &[Want], total: u32, limits: &mut [u32])
    requires lengths { length limits.old ≡ length wants.now }
    requires wants { All IsWant wants.now }
    requires needs { needs wants.now ≤ total }
    ensures shares { limits.new ≡ map (share_of wants.now total) wants.now }
    ensures within { sum limits.new ≤ total }
    ensures each { All (λ want. (want.need ≤ share_of wants.now total want) × (share_of wants.now total want ≤ want.most)) wants.now }
{
    let extra = total - needs_of(wants);
    let wishes = wishes_of(wants);
    let dealt = if wishes < u128::from(extra) {
        wishes as u32
    } else {
        extra
    };
    for (i, want) in wants.iter().enumerate() {
        limits[i] = limit_of(want, dealt, wishes);
    }
}
