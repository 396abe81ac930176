// The reader of a book as it was before requests 2.1 and 2.3, and the price as it was before 2.3, as definitions, and the theorems that compare them
// with today's. No code.
#![tactic(auto)]
