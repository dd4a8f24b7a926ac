// What a run of `press_row` over a link writes, and then the last row, is the listing of the whole, whatever the pieces were (`press-listing`). From its
// promise alone. No code stands here.
#![tactic(auto)]
